//! A batch of changes.
ghost use Rattle.std.specs.Prelude.{◌≡◌, IfOk};

use crate::props::copy_props;
use ax_base::{Ids, NoMemory, ObjId, Sequence};
use ax_record::{PropList, Record};
use std::alloc::Global;

/// An object that differs, with the properties that differ.
#[derive(Debug, Drop, PartialEq, Eq)]
pub struct Change {
    /// The object.
    pub id: ObjId,
    /// The properties that differ, in the order of `Prop`, with their new values.
    pub props: PropList,
}

impl Change {
    /// An equal change.
    fn copy(&self, alloc: Global) -> Result<Change, NoMemory>
        ensures { IfOk result (λ copy. copy ≡ self.now) }
    {
        Ok(Change {
            id: self.id,
            props: copy_props(alloc, &self.props)?,
        })
    }
}

/// Some records, in order. A clause sees them as a list.
pub type Records = Sequence<Record>;

/// Some changes, in order. A clause sees them as a list.
pub type Changes = Sequence<Change>;

/// Equal records.
fn copy_records(alloc: Global, records: &[Record]) -> Result<Records, NoMemory>
    ensures { IfOk result (λ copy. copy ≡ records.now) }
{
    let mut copy = Records::new(alloc);
    for object in records {
        copy.push(object.copy(alloc)?)?;
    }
    Ok(copy)
}

/// Equal changes.
fn copy_changes(alloc: Global, changes: &[Change]) -> Result<Changes, NoMemory>
    ensures { IfOk result (λ copy. copy ≡ changes.now) }
{
    let mut copy = Changes::new(alloc);
    for change in changes {
        copy.push(change.copy(alloc)?)?;
    }
    Ok(copy)
}

/// What differs from one tree to another.
#[derive(Debug, Drop, PartialEq, Eq)]
pub struct Batch {
    /// The objects that only the second has, by rising id.
    pub added: Records,
    /// The objects of both that differ, by rising id.
    pub changed: Changes,
    /// The ids of the objects that only the first has, rising.
    pub removed: Ids,
    /// The focus of the second, where it is not that of the first.
    pub focus: Option<Option<ObjId>>,
}

impl Batch {
    /// An equal batch.
    pub fn copy(&self, alloc: Global) -> Result<Batch, NoMemory>
        ensures { IfOk result (λ copy. copy ≡ self.now) }
    {
        Ok(Batch {
            added: copy_records(alloc, self.added.as_slice())?,
            changed: copy_changes(alloc, self.changed.as_slice())?,
            removed: self.removed.copy(alloc)?,
            focus: self.focus,
        })
    }
}
