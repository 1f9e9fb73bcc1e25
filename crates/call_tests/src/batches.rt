//! Each list once. Batches of trees are in the crates that make trees.
ghost use Rattle.std.specs.Prelude.{◌≡◌};

use ax_base::{Ids, Live, ObjId, Rect, Role, Runs, States, Text};
use ax_batch::{Change, Changes, Records};
use ax_record::{PropList, Record};
use std::alloc::Global;
use std::test::Fail;

/// A document without kids, of that id.
fn object(alloc: Global, id: u32) -> Record {
    Record {
        id: ObjId(id),
        role: Role::Document,
        name: Text::new(alloc),
        description: Text::new(alloc),
        value: None,
        states: States {
            focusable: false,
            disabled: false,
            checked: None,
            expanded: None,
            selected: None,
            pressed: None,
            required: false,
            readonly: false,
            invalid: false,
            busy: false,
        },
        level: None,
        live: Live::Off,
        frame: Rect {
            x: 0,
            y: 0,
            w: 0,
            h: 0,
        },
        text: None,
        runs: Runs::new(alloc),
        parent: None,
        kids: Ids::new(alloc),
    }
}

#[test]
fn records_come_back_in_order(rt: HostRuntime) -> Result<(), Fail> {
    let alloc = rt.alloc();
    let mut records = Records::new(alloc);
    records.push(object(alloc, 3))?;
    records.push(object(alloc, 7))?;
    let back = records.into_vec();
    assert_eq!(rt; back.len(), 2);
    assert_eq!(rt; back[1].id, ObjId(7));
    Ok(())
}

#[test]
fn changes_come_back_in_order(rt: HostRuntime) -> Result<(), Fail> {
    let alloc = rt.alloc();
    let mut changes = Changes::new(alloc);
    changes.push(Change {
        id: ObjId(3),
        props: PropList::new(alloc),
    })?;
    changes.push(Change {
        id: ObjId(7),
        props: PropList::new(alloc),
    })?;
    let back = changes.into_vec();
    assert_eq!(rt; back.len(), 2);
    assert_eq!(rt; back[1].id, ObjId(7));
    Ok(())
}
