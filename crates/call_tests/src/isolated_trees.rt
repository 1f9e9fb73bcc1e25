//! A tree with the root alone, copied.
ghost use Rattle.std.specs.Prelude.{◌≡◌, [], None};
ghost use Rattle.ax_record.specs.ObjectTrees.{HasFittingText, KeepsBounds};

use ax_base::{Ids, Live, Notices, ObjId, Rect, Role, Runs, States, Text};
use ax_record::{FreshTree, Record, RecordMap, TreeView};
use change_log::ChangeLog;
use isolated_map::Isolated;
use std::alloc::Global;
use std::test::Fail;

/// Takes what may be handed to another thread.
fn needs_send<T: Send>(_: &T) {}

/// A document without kids.
fn root(alloc: Global) -> Record
    ensures own { result.id ≡ 1 }
    ensures top { result.parent ≡ None }
    ensures bare { result.kids ≡ [] }
    ensures fits { HasFittingText result }
    ensures bounds { KeepsBounds result }
{
    Record {
        id: ObjId::ROOT,
        role: Role::Document,
        name: Text::new(alloc),
        description: Text::new(alloc),
        value: None,
        states: States {
            focusable: false,
            disabled: false,
            checked: None,
            expanded: None,
            selected: None,
            pressed: None,
            required: false,
            readonly: false,
            invalid: false,
            busy: false,
        },
        level: None,
        live: Live::Off,
        frame: Rect {
            x: 0,
            y: 0,
            w: 0,
            h: 0,
        },
        text: None,
        runs: Runs::new(alloc),
        parent: None,
        kids: Ids::new(alloc),
    }
}

/// A tree with the root alone.
fn lone_root(alloc: Global) -> Result<FreshTree, Fail> {
    let mut records = RecordMap::new(alloc);
    records.put(root(alloc))?;
    let tree = FreshTree::new(records, None);
    Ok(tree)
}

/// A tree that takes the empty log over.
fn unchanged(alloc: Global, tree: Isolated) -> Result<(Isolated, Notices), Fail> {
    let _root = tree.find(tree.root());
    let taken = tree.patch(ChangeLog::empty(alloc))?;
    Ok(taken)
}

#[test]
fn a_copy_has_the_same_objects(rt: HostRuntime) -> Result<(), Fail> {
    let alloc = rt.alloc();
    let tree = lone_root(alloc)?;
    let copy = Isolated::from_tree(alloc, &tree)?;
    needs_send(&copy);
    let (copy, notices) = unchanged(alloc, copy)?;
    assert!(rt;
        copy.find(ObjId::ROOT)
            .is_some_and(|r| r.role == Role::Document)
    );
    assert!(rt; copy.find(ObjId(2)).is_none() && copy.focus().is_none());
    assert_eq!(rt; copy.root(), ObjId::ROOT);
    assert_eq!(rt; notices.as_slice().len(), 0);
    Ok(())
}
