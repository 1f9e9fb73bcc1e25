//! A tree that is kept up to date by batches.
ghost use Rattle.std.specs.Prelude.{◌≡◌, IfOk, OnOk, None, option_copied, unwrap_or};
ghost use Rattle.std.specs.List.{flat_map};
ghost use Rattle.ax_base.specs.Document.{root};
ghost use Rattle.ax_record.specs.Tree.{Tree, record_at, made_at};
ghost use Rattle.ax_record.specs.ObjectTrees.{IsObjectTree};
ghost use Rattle.ax_batch.specs.Batches.{added_at, with_added, patched};
ghost use Rattle.change_log.specs.Logs.{patched_by, notices_in, MayPatch};
ghost use Rattle.isolated_map.specs.NoTree.{no_tree};

use crate::records::IndexedRecords;
use ax_base::{NoMemory, Notices, ObjId};
use ax_batch::Batch;
use ax_record::{Record, TreeView, rising_ids};
use change_log::{ChangeLog, LogEntries};
use std::alloc::Global;
use std::marker::Model;

/// A tree that is kept up to date by batches. A clause sees it as the tree.
#[derive(Drop)]
pub struct Isolated {
    records: IndexedRecords,
    focus: Option<ObjId>,
}

impl Model for Isolated {
    ghost use Rattle.ax_record.specs.Tree.{Tree};
    ghost use Rattle.ax_record.specs.ObjectTrees.{IsObjectTree};

    ghost Value = { Tree };

    ghost view = { λ a. record { entries = a.records; focus = a.focus } };

    ghost invariant = { λ a. IsObjectTree (record { entries = a.records; focus = a.focus }) };
}

impl TreeView for Isolated {
    ghost tree = { λ t. t };

    fn find(&self, id: ObjId) -> Option<&Record> {
        self.records.find(id)
    }

    fn root(&self) -> ObjId {
        let _tree = &self.focus;
        ObjId::ROOT
    }

    fn focus(&self) -> Option<ObjId> {
        self.focus
    }
}

impl Isolated {
    /// A copy of a tree.
    pub fn from_tree<T: TreeView>(alloc: Global, t: &T) -> Result<Isolated, NoMemory>
        ensures { IfOk result (λ copy. copy ≡ T.tree t.now) }
    {
        let _root = t.find(t.root());
        let ids = rising_ids(alloc, t)?;
        let mut records = IndexedRecords::new(alloc);
        copy_all(alloc, t, ids.as_slice(), &mut records)?;
        Ok(Isolated {
            records,
            focus: t.focus(),
        })
    }

    /// The tree after the batch of a log, and the log's notices. It costs what the log has, and never walks the tree. At `Err`
    /// both are given up.
    pub fn patch(self, log: ChangeLog) -> Result<(Isolated, Notices), NoMemory>
        requires { MayPatch self log }
        ensures tree { IfOk result (λ r. r.0 ≡ patched_by self log) }
        ensures notices { IfOk result (λ r. r.1 ≡ notices_in log) }
    {
        let LogEntries { batch, notices } = log.into_entries();
        let tree = self.after(batch)?;
        Ok((tree, notices))
    }

    /// The tree after a batch. At `Err` it is given up.
    fn after(self, batch: Batch) -> Result<Isolated, NoMemory>
        requires { IsObjectTree (patched self batch) }
        ensures { IfOk result (λ r. r ≡ patched self batch) }
    {
        let Isolated { mut records, focus } = self;
        records.take_out_all(batch.removed);
        records.change_all(batch.changed);
        records.put_all(batch.added)?;
        Ok(Isolated {
            records,
            focus: batch.focus.unwrap_or(focus),
        })
    }
}

/// Copies of the records of some ids.
fn copy_all<T: TreeView>(
    alloc: Global,
    t: &T,
    ids: &[ObjId],
    records: &mut IndexedRecords,
) -> Result<(), NoMemory>
    ensures { OnOk result (records.new ≡ with_added records.old (flat_map (made_at added_at no_tree (T.tree t.now)) ids.now)) }
{
    for id in ids {
        copy_one(alloc, t.find(*id), *id, records)?;
    }
    Ok(())
}

/// A copy of a record, where there is one.
fn copy_one(
    alloc: Global,
    found: Option<&Record>,
    id: ObjId,
    records: &mut IndexedRecords,
) -> Result<(), NoMemory>
    ensures { OnOk result (records.new ≡ with_added records.old (added_at None (option_copied found.entry) id)) }
{
    let _id = id;
    if let Some(object) = found {
        records.put(object.copy(alloc)?)?;
    }
    Ok(())
}
