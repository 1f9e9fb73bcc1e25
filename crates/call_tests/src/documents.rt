//! What no clause says: that no call reports want of memory while there is enough.
//! What edits do, and what they are refused for, is compared on
//! stories.
ghost use Rattle.std.specs.Prelude.{◌≡◌, IfOk};
ghost use Rattle.ax_dom.specs.Bounds.{EditKeepsBounds};

use ax_base::{Attrs, ObjId, Steps, Text};
use ax_dom::{Dom, Edit, EditCause};
use std::alloc::Global;
use std::marker::Brand;
use std::process::Abort;
use std::sync::ledger::{Blank, Ledger};
use std::test::Fail;

/// A paragraph without attributes below the root.
fn paragraph(alloc: Global, id: u32) -> Result<Edit, Fail>
    ensures { IfOk result EditKeepsBounds }
{
    Ok(Edit::InsertElement {
        id: ObjId(id),
        into: ObjId::ROOT,
        before: None,
        tag: Text::from_str(alloc, "p")?,
        attrs: Attrs::new(alloc),
    })
}

#[test]
fn an_inserted_element_is_there(rt: HostRuntime) -> Result<(), Fail> {
    let alloc = rt.alloc();
    let mut dom = Dom::new(alloc)?;
    dom.apply(alloc, &paragraph(alloc, 5)?)?;
    dom.apply(alloc, &Edit::Focus(Some(ObjId(5))))?;
    assert_eq!(rt; dom.focus(), Some(ObjId(5)));
    read::<Brand>(&rt, &dom, Blank::new(1));
    Ok(())
}

fn read<L: Ledger>(rt: &impl Abort, dom: &Dom, blank: Blank)
    requires name { blank.name ≡ L.name }
    requires parts { blank.parts ≡ L.parts }
    requires whole { blank.parts ≡ 1 }
{
    let (book, share) = blank.open::<L>();
    let mut steps = Steps::new(book, share);
    assert_eq!(rt;
        dom.children(ObjId::ROOT, &mut steps),
        [ObjId(5)].as_slice()
    );
    assert_eq!(rt; dom.parent(ObjId(5), &mut steps), Some(ObjId::ROOT));
    assert!(rt; dom.cell(ObjId(5), &mut steps).is_some());
}

#[test]
fn an_edit_is_refused(rt: HostRuntime) -> Result<(), Fail> {
    let alloc = rt.alloc();
    let mut dom = Dom::new(alloc)?;
    assert_eq!(rt;
        dom.apply(alloc, &Edit::Remove(ObjId(5))),
        Err(EditCause::NoNode)
    );
    Ok(())
}
