//! What a batch does with an object, and what two do that come one after the other.
ghost use Rattle.std.specs.Prelude.{◌≡◌, Some, IfOk, option_copied};
ghost use Rattle.ax_batch.specs.Fates.{joint_fate, joint_props, all_props};

use crate::props::{all_props, joint_props};
use ax_base::NoMemory;
use ax_record::{PropList, Record};
use std::alloc::Global;

/// What a batch does with an object.
#[derive(Drop)]
pub enum Fate {
    /// It is new, with this record.
    Added(Record),
    /// It takes these properties over.
    Changed(PropList),
    /// It is gone.
    Removed,
}

/// What becomes of an object that had one fate before, or none, and has another now.
pub(crate) fn joint_fate(
    alloc: Global,
    before: Option<&Fate>,
    now: Fate,
) -> Result<Option<Fate>, NoMemory>
    ensures { IfOk result (λ fate. fate ≡ joint_fate (option_copied before.entry) (Some now)) }
{
    match before {
        None => Ok(Some(now)),
        Some(Fate::Added(object)) => after_added(alloc, object, now),
        Some(Fate::Changed(props)) => after_changed(alloc, props, now),
        Some(Fate::Removed) => after_removed(alloc, now),
    }
}

/// What becomes of an object that was added.
fn after_added(alloc: Global, object: &Record, now: Fate) -> Result<Option<Fate>, NoMemory>
    ensures { IfOk result (λ fate. fate ≡ joint_fate (Some (Fate.Added object.now)) (Some now)) }
{
    match now {
        Fate::Added(other) => Ok(Some(Fate::Added(other))),
        Fate::Changed(props) => {
            let mut changed = object.copy(alloc)?;
            changed.take_over_all(props);
            Ok(Some(Fate::Added(changed)))
        }
        Fate::Removed => Ok(None),
    }
}

/// What becomes of an object that was changed.
fn after_changed(alloc: Global, props: &PropList, now: Fate) -> Result<Option<Fate>, NoMemory>
    ensures { IfOk result (λ fate. fate ≡ joint_fate (Some (Fate.Changed props.now)) (Some now)) }
{
    match now {
        Fate::Added(object) => Ok(Some(Fate::Added(object))),
        Fate::Changed(more) => Ok(Some(Fate::Changed(joint_props(alloc, props, &more)?))),
        Fate::Removed => Ok(Some(Fate::Removed)),
    }
}

/// What becomes of an object that was gone.
fn after_removed(alloc: Global, now: Fate) -> Result<Option<Fate>, NoMemory>
    ensures { IfOk result (λ fate. fate ≡ joint_fate (Some Fate.Removed) (Some now)) }
{
    match now {
        Fate::Added(object) => Ok(Some(Fate::Changed(all_props(alloc, object)?))),
        Fate::Changed(_) => Ok(Some(Fate::Removed)),
        Fate::Removed => Ok(Some(Fate::Removed)),
    }
}
