//! What no clause says: that no call reports want of memory while there is enough.
//! What is said of whom is compared on stories.
ghost use Rattle.std.specs.Prelude.{◌≡◌, IsTrue};
ghost use Rattle.ax_base.specs.Document.{root, has};

use ax_base::{ObjId, Steps, Text};
use ax_dom::{Dom, Edit};
use ax_names::{description_of, name_of, said_plain, said_shown, said_whole};
use std::alloc::Global;
use std::marker::Brand;
use std::process::Abort;
use std::sync::ledger::{Blank, Ledger};
use std::test::Fail;

#[test]
fn a_text_is_said(rt: HostRuntime) -> Result<(), Fail> {
    let alloc = rt.alloc();
    let mut dom = Dom::new(alloc)?;
    let text = Edit::InsertText {
        id: ObjId(2),
        into: ObjId::ROOT,
        before: None,
        chars: Text::from_str(alloc, " tea")?,
    };
    dom.apply(alloc, &text)?;
    say::<Brand>(&rt, alloc, &dom, Blank::new(1))
}

fn say<L: Ledger>(rt: &impl Abort, alloc: Global, dom: &Dom, blank: Blank) -> Result<(), Fail>
    requires name { blank.name ≡ L.name }
    requires parts { blank.parts ≡ L.parts }
    requires whole { blank.parts ≡ 1 }
    requires root { IsTrue (has dom.now root) }
{
    let (book, share) = blank.open::<L>();
    let mut steps = Steps::new(book, share);
    let plain = said_plain(alloc, dom, ObjId::ROOT, &mut steps)?;
    let whole = said_whole(alloc, dom, ObjId::ROOT, &mut steps)?;
    let shown = said_shown(alloc, dom, ObjId::ROOT, &mut steps)?;
    assert!(rt; plain.is(" tea") && whole.is(" tea") && shown.is(" tea"));
    Ok(())
}

#[test]
fn a_label_names(rt: HostRuntime) -> Result<(), Fail> {
    let alloc = rt.alloc();
    let mut dom = Dom::new(alloc)?;
    let label = Edit::Set {
        id: ObjId::ROOT,
        name: Text::from_str(alloc, "aria-label")?,
        value: Text::from_str(alloc, "Shop")?,
    };
    dom.apply(alloc, &label)?;
    ask::<Brand>(&rt, alloc, &dom, Blank::new(1))
}

fn ask<L: Ledger>(rt: &impl Abort, alloc: Global, dom: &Dom, blank: Blank) -> Result<(), Fail>
    requires name { blank.name ≡ L.name }
    requires parts { blank.parts ≡ L.parts }
    requires whole { blank.parts ≡ 1 }
    requires root { IsTrue (has dom.now root) }
{
    let (book, share) = blank.open::<L>();
    let mut steps = Steps::new(book, share);
    let name = name_of(alloc, dom, ObjId::ROOT, &mut steps)?;
    let description = description_of(alloc, dom, ObjId::ROOT, &mut steps)?;
    assert!(rt; name.is("Shop") && description.is(""));
    Ok(())
}
