//! Each public function once.
ghost use Rattle.std.specs.Prelude.{◌≡◌};

use ax_base::{Ids, Moment, Notice, NoticeKind, Notices, ObjId};
use ax_batch::{Batch, Changes, Records, merge};
use change_log::ChangeLog;
use std::alloc::Global;
use std::test::Fail;

/// Takes what may be handed to another thread.
fn needs_send<T: Send>(_: &T) {}

/// A batch that hands the focus to an object.
fn focus_on(alloc: Global, id: u32) -> Batch {
    Batch {
        added: Records::new(alloc),
        changed: Changes::new(alloc),
        removed: Ids::new(alloc),
        focus: Some(Some(ObjId(id))),
    }
}

#[test]
fn the_last_focus_counts(rt: HostRuntime) -> Result<(), Fail> {
    let alloc = rt.alloc();
    let mut log = ChangeLog::empty(alloc);
    needs_send(&log);
    log.append(focus_on(alloc, 2), Notices::new(alloc))?;
    log.append(focus_on(alloc, 3), Notices::new(alloc))?;
    let entries = log.into_entries();
    assert!(rt; entries.batch.focus == Some(Some(ObjId(3))));
    Ok(())
}

#[test]
fn a_copied_batch_merges_as_it_does(rt: HostRuntime) -> Result<(), Fail> {
    let alloc = rt.alloc();
    let first = focus_on(alloc, 2);
    let second = first.copy(alloc)?;
    let both = merge(alloc, first, second)?;
    assert!(rt; both.focus == Some(Some(ObjId(2))));
    assert_eq!(rt; both.added.as_slice().len(), 0);
    Ok(())
}

#[test]
fn notices_are_put_behind_others(rt: HostRuntime) -> Result<(), Fail> {
    let alloc = rt.alloc();
    let mut notices = Notices::new(alloc);
    notices.extend(Notices::from_vec(vec![in alloc; focus_notice(2)]?))?;
    notices.extend(Notices::from_vec(vec![in alloc; focus_notice(3)]?))?;
    assert_eq!(rt; notices.as_slice().len(), 2);
    assert_eq!(rt; notices.as_slice()[1], focus_notice(3));
    Ok(())
}

/// A notice of moment 1 that an object has the focus.
fn focus_notice(id: u32) -> Notice
    ensures { result.moment ≡ 1 }
{
    Notice {
        moment: Moment(1),
        kind: NoticeKind::Focus,
        id: Some(ObjId(id)),
    }
}
