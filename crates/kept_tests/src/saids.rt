//! What the nodes of a document with one button say and are called.
ghost use Rattle.std.specs.Prelude.{◌≡◌, ℕ, [], ◌∷◌};
ghost use Rattle.ax_base.specs.Document.{has};
ghost use Rattle.ax_dom.specs.Among.{is_in};

use ax_base::{Attrs, ObjId, Steps, Text};
use ax_dom::{Dom, Edit};
use ctx_pass::Contexts;
use dom_ids::IdIndex;
use node_order::from_above;
use said_pass::Saids;
use std::alloc::Global;
use std::marker::Brand;
use std::process::Abort;
use std::sync::ledger::{Blank, Ledger};
use std::test::Fail;

#[test]
fn names_are_made_and_renewed(rt: HostRuntime) -> Result<(), Fail> {
    let alloc = rt.alloc();
    let mut dom = Dom::new(alloc)?;
    let mut attrs = Attrs::new(alloc);
    attrs.set(
        Text::from_str(alloc, "aria-label")?,
        Text::from_str(alloc, "Save")?,
    )?;
    let button = Edit::InsertElement {
        id: ObjId(2),
        into: ObjId::ROOT,
        before: None,
        tag: Text::from_str(alloc, "button")?,
        attrs,
    };
    dom.apply(alloc, &button)?;
    name::<Brand>(&rt, alloc, &dom, Blank::new(1))
}

/// Names the nodes of a document of two nodes, and none of them again.
fn name<L: Ledger>(rt: &impl Abort, alloc: Global, dom: &Dom, blank: Blank) -> Result<(), Fail>
    requires all { (n : ℕ) → has dom.now n ≡ is_in (1 ∷ 2 ∷ []) n }
    requires name { blank.name ≡ L.name }
    requires parts { blank.parts ≡ L.parts }
    requires whole { blank.parts ≡ 1 }
{
    dom.keeps_tree();
    let (book, share) = blank.open::<L>();
    let mut steps = Steps::new(book, share);
    let all = from_above(alloc, dom, &[ObjId::ROOT, ObjId(2)], &mut steps)?;
    let none = from_above(alloc, dom, &[], &mut steps)?;
    let ids = IdIndex::new(alloc, dom, &mut steps)?;
    let contexts = Contexts::new(alloc).renew(dom, all.as_slice(), &mut steps)?;
    let nothing = Saids::new(alloc);
    let made = nothing.renew(alloc, dom, &ids, &contexts, all.as_slice(), &mut steps)?;
    let saids = made.renew(alloc, dom, &ids, &contexts, none.as_slice(), &mut steps)?;
    assert!(rt; saids.name(ObjId(2)).is("Save"));
    assert!(rt; saids.description(ObjId(2)).is(""));
    Ok(())
}
