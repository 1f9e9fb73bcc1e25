//! Contexts and kids of a document with one button.
ghost use Rattle.std.specs.Prelude.{◌≡◌, ℕ, [], ◌∷◌};
ghost use Rattle.ax_base.specs.Document.{has};
ghost use Rattle.ax_dom.specs.Among.{is_in};

use ax_base::{Attrs, ObjId, Steps, Text};
use ax_dom::{Dom, Edit};
use ctx_pass::Contexts;
use kids_pass::Kids;
use node_order::from_above;
use std::alloc::Global;
use std::marker::Brand;
use std::process::Abort;
use std::sync::ledger::{Blank, Ledger};
use std::test::Fail;

#[test]
fn contexts_and_kids_are_made_and_renewed(rt: HostRuntime) -> Result<(), Fail> {
    let alloc = rt.alloc();
    let mut dom = Dom::new(alloc)?;
    let button = Edit::InsertElement {
        id: ObjId(2),
        into: ObjId::ROOT,
        before: None,
        tag: Text::from_str(alloc, "button")?,
        attrs: Attrs::new(alloc),
    };
    dom.apply(alloc, &button)?;
    keep::<Brand>(&rt, alloc, &dom, Blank::new(1))
}

/// Keeps the contexts and kids of a document of two nodes, and renews those of none.
fn keep<L: Ledger>(rt: &impl Abort, alloc: Global, dom: &Dom, blank: Blank) -> Result<(), Fail>
    requires all { (n : ℕ) → has dom.now n ≡ is_in (1 ∷ 2 ∷ []) n }
    requires name { blank.name ≡ L.name }
    requires parts { blank.parts ≡ L.parts }
    requires whole { blank.parts ≡ 1 }
{
    dom.keeps_tree();
    let (book, share) = blank.open::<L>();
    let mut steps = Steps::new(book, share);
    let all = from_above(alloc, dom, &[ObjId::ROOT, ObjId(2)], &mut steps)?;
    let none = from_above(alloc, dom, &[], &mut steps)?;
    let made = Contexts::new(alloc).renew(dom, all.as_slice(), &mut steps)?;
    let contexts = made.renew(dom, none.as_slice(), &mut steps)?;
    let first = Kids::new(alloc).renew(alloc, dom, &contexts, all.as_slice(), &mut steps)?;
    let kids = first.renew(alloc, dom, &contexts, none.as_slice(), &mut steps)?;
    assert!(rt; !contexts.context(ObjId::ROOT).is_out());
    assert!(rt; kids.kids(ObjId::ROOT).len() == 1);
    Ok(())
}
