//! An attribute that comes to a document: its index of ids, and what its marks reach.
ghost use Rattle.std.specs.Prelude.{◌≡◌, None};
ghost use Rattle.ax_dom.specs.Changes.{edited};
ghost use Rattle.ax_dom.specs.Refusals.{edit_cause};

use ax_base::{Attrs, ObjId, Steps, Text};
use ax_dom::{Dom, Edit};
use dirty_set::Marks;
use dom_ids::IdIndex;
use std::alloc::Global;
use std::marker::Brand;
use std::process::Abort;
use std::sync::ledger::{Blank, Ledger};
use std::test::Fail;

/// A document with one button.
fn one_button(alloc: Global) -> Result<Dom, Fail> {
    let mut dom = Dom::new(alloc)?;
    let button = Edit::InsertElement {
        id: ObjId(2),
        into: ObjId::ROOT,
        before: None,
        tag: Text::from_str(alloc, "button")?,
        attrs: Attrs::new(alloc),
    };
    dom.apply(alloc, &button)?;
    Ok(dom)
}

#[test]
fn an_id_comes(rt: HostRuntime) -> Result<(), Fail> {
    let alloc = rt.alloc();
    let old = one_button(alloc)?;
    let mut now = old.copy(alloc)?;
    let e = Edit::Set {
        id: ObjId(2),
        name: Text::from_str(alloc, "id")?,
        value: Text::from_str(alloc, "a")?,
    };
    now.apply(alloc, &e)?;
    follow::<Brand>(&rt, alloc, &old, &now, &e, Blank::new(1))
}

/// Follows an edit from one document to the next.
fn follow<L: Ledger>(
    rt: &impl Abort,
    alloc: Global,
    old: &Dom,
    now: &Dom,
    e: &Edit,
    blank: Blank,
) -> Result<(), Fail>
    requires free { edit_cause old.now e.now ≡ None }
    requires leads { now.now ≡ edited old.now e.now }
    requires name { blank.name ≡ L.name }
    requires parts { blank.parts ≡ L.parts }
    requires whole { blank.parts ≡ 1 }
{
    let (book, share) = blank.open::<L>();
    let mut steps = Steps::new(book, share);
    let before = IdIndex::new(alloc, old, &mut steps)?;
    let ids = before.after(alloc, old, now, e, &mut steps)?;
    let mut marks = Marks::empty(alloc);
    marks.note(alloc, old, now, &ids, e, &mut steps)?;
    let reached = marks.reach(alloc, now, &ids, &mut steps)?;
    assert!(rt; ids.first("a") == Some(ObjId(2)));
    assert!(rt; ids.carriers("a").len() == 1);
    assert!(rt; ids.namers("a").is_empty() && ids.labels("a").is_empty());
    assert!(rt; reached.as_slice().len() == 2);
    Ok(())
}
