//! A document that is edited and flushed in turn.
ghost use Rattle.std.specs.Prelude.{◌≡◌, IfOk};
ghost use Rattle.ax_dom.specs.Bounds.{EditKeepsBounds};

use ax_base::{Attrs, NoMemory, ObjId, Steps, Text};
use ax_dom::{Dom, Edit};
use marked_dom::{MarkedDom, UnmarkedDom};
use std::alloc::Global;
use std::marker::Brand;
use std::process::Abort;
use std::sync::ledger::{Blank, Ledger};
use std::test::Fail;

#[test]
fn edits_and_flushes_take_turns(rt: HostRuntime) -> Result<(), Fail> {
    let alloc = rt.alloc();
    let dom = UnmarkedDom::new(alloc, Dom::new(alloc)?)?;
    take_turns::<Brand>(&rt, alloc, dom, Blank::new(1))
}

/// Edits a document twice before a flush, and once after it.
fn take_turns<L: Ledger>(
    rt: &impl Abort,
    alloc: Global,
    dom: UnmarkedDom,
    blank: Blank,
) -> Result<(), Fail>
    requires name { blank.name ≡ L.name }
    requires parts { blank.parts ≡ L.parts }
    requires whole { blank.parts ≡ 1 }
{
    let (book, share) = blank.open::<L>();
    let mut steps = Steps::new(book, share);
    let mut dom = dom.into_marked(alloc);
    edit(rt, alloc, &mut dom, &button(alloc)?, &mut steps)?;
    edit(rt, alloc, &mut dom, &named(alloc)?, &mut steps)?;
    let (dom, reached) = dom.flush(alloc, &mut steps)?;
    let mut dom = dom.into_marked(alloc);
    edit(rt, alloc, &mut dom, &Edit::Remove(ObjId(2)), &mut steps)?;
    assert!(rt; reached.as_slice().len() == 2);
    assert!(rt; !dom.document().has(ObjId(2)));
    Ok(())
}

/// Does an edit that nothing refuses.
fn edit<L: Ledger>(
    rt: &impl Abort,
    alloc: Global,
    dom: &mut MarkedDom,
    e: &Edit,
    steps: &mut Steps<L>,
) -> Result<(), Fail>
    requires { EditKeepsBounds e.now }
{
    let cause = dom.document().cause_of(e);
    assert!(rt; cause.is_none());
    dom.edit(alloc, e, steps)?;
    Ok(())
}

/// A button that is put into the root.
fn button(alloc: Global) -> Result<Edit, NoMemory>
    ensures { IfOk result (λ e. EditKeepsBounds e) }
{
    Ok(Edit::InsertElement {
        id: ObjId(2),
        into: ObjId::ROOT,
        before: None,
        tag: Text::from_str(alloc, "button")?,
        attrs: Attrs::new(alloc),
    })
}

/// An `id` for the button.
fn named(alloc: Global) -> Result<Edit, NoMemory>
    ensures { IfOk result (λ e. EditKeepsBounds e) }
{
    Ok(Edit::Set {
        id: ObjId(2),
        name: Text::from_str(alloc, "id")?,
        value: Text::from_str(alloc, "a")?,
    })
}
