//! What no clause says: that no call reports want of memory while there is enough.
//! What a tree holds is compared on stories.
ghost use Rattle.std.specs.Prelude.{◌≡◌};

use ax_base::{Attrs, ObjId, Steps, Text};
use ax_dom::{Dom, Edit};
use ax_fresh::build;
use ax_record::TreeView;
use std::alloc::Global;
use std::marker::Brand;
use std::process::Abort;
use std::sync::ledger::{Blank, Ledger};
use std::test::Fail;

#[test]
fn a_document_has_its_tree(rt: HostRuntime) -> Result<(), Fail> {
    let alloc = rt.alloc();
    let mut dom = Dom::new(alloc)?;
    let button = Edit::InsertElement {
        id: ObjId(2),
        into: ObjId::ROOT,
        before: None,
        tag: Text::from_str(alloc, "button")?,
        attrs: Attrs::new(alloc),
    };
    dom.apply(alloc, &button)?;
    look::<Brand>(&rt, alloc, &dom, Blank::new(1))
}

fn look<L: Ledger>(rt: &impl Abort, alloc: Global, dom: &Dom, blank: Blank) -> Result<(), Fail>
    requires name { blank.name ≡ L.name }
    requires parts { blank.parts ≡ L.parts }
    requires whole { blank.parts ≡ 1 }
{
    let (book, share) = blank.open::<L>();
    let mut steps = Steps::new(book, share);
    let tree = build(alloc, dom, &mut steps)?;
    assert!(rt; tree.find(ObjId(2)).is_some());
    Ok(())
}
