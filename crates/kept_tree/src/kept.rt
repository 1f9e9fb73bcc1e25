//! The tree that is kept from flush to flush, and what it becomes.
ghost use Rattle.std.specs.Prelude.{◌≡◌, [], IfOk, OnOk, option_copied};
ghost use Rattle.std.specs.List.Sorted.{IsStrictlyIncreasing};
ghost use Rattle.ax_base.specs.Document.{root};
ghost use Rattle.ax_record.specs.Tree.{Tree, record_at, entry_at};
ghost use Rattle.ax_record.specs.ObjectTrees.{IsObjectTree};
ghost use Rattle.kept_tree.specs.Renewing.{renewed, renewed_tree, with_at};

use crate::sparse::FewRecords;
use ax_base::{IdMap, Ids, NoMemory, ObjId};
use ax_dom::is_among;
use ax_record::{Record, TreeView, rising_ids};
use std::alloc::Global;
use std::marker::Model;

/// A tree that is kept from flush to flush. A look-up of a small id reads one place. A clause sees it as the tree.
#[derive(Drop)]
pub struct KeptTree {
    records: IdMap<Record>,
    focus: Option<ObjId>,
}

impl Model for KeptTree {
    ghost use Rattle.ax_record.specs.Tree.{Tree};
    ghost use Rattle.ax_record.specs.ObjectTrees.{IsObjectTree};

    ghost Value = { Tree };

    ghost view = { λ a. record { entries = a.records; focus = a.focus } };

    ghost invariant = { λ a. IsObjectTree (record { entries = a.records; focus = a.focus }) };
}

impl KeptTree {
    /// A tree that is kept, equal to another. It walks the other whole and copies each record, so it is for the first tree
    /// alone.
    pub fn copy_of<T: TreeView>(alloc: Global, tree: &T) -> Result<KeptTree, NoMemory>
        ensures { IfOk result (λ t. t ≡ T.tree tree.now) }
    {
        let _root = tree.find(tree.root());
        let ids = rising_ids(alloc, tree)?;
        let records = copied(alloc, tree, ids)?;
        let focus = tree.focus();
        Ok(KeptTree { records, focus })
    }
}

impl TreeView for KeptTree {
    ghost tree = { λ t. t };

    fn find(&self, id: ObjId) -> Option<&Record> {
        self.records.get(id)
    }

    fn root(&self) -> ObjId {
        let _tree = &self.focus;
        ObjId::ROOT
    }

    fn focus(&self) -> Option<ObjId> {
        self.focus
    }
}

/// A tree that is kept, and the tree that it becomes, which has other records at some ids. As a view it is the latter.
/// Beside the tree that is kept it has those records alone. Where n ids are renewed, a look-up takes about log n
/// comparisons more than one in the tree that is kept.
#[derive(Drop)]
pub struct RenewedTree {
    kept: KeptTree,
    ids: Ids,
    fresh: FewRecords,
    focus: Option<ObjId>,
}

impl Model for RenewedTree {
    ghost use Rattle.kept_tree.specs.Renewing.{TwoTrees, IsRenewed, renewed_tree};

    ghost Value = { TwoTrees };

    ghost view = { λ a. record { before = a.kept; after = renewed_tree a.kept a.fresh a.ids a.focus; places = a.ids } };

    ghost invariant = { λ a. IsRenewed a.kept a.fresh a.ids a.focus };
}

impl TreeView for RenewedTree {
    ghost tree = { λ t. t.after };

    fn find(&self, id: ObjId) -> Option<&Record> {
        if is_among(self.ids.as_slice(), id) {
            return self.fresh.find(id);
        }
        self.kept.find(id)
    }

    fn root(&self) -> ObjId {
        let _tree = &self.focus;
        ObjId::ROOT
    }

    fn focus(&self) -> Option<ObjId> {
        self.focus
    }
}

impl RenewedTree {
    /// A tree with other records at some ids, which rise, and with another focus. One of these ids that has no fresh record
    /// is no object of it. It moves what it is given, and takes no memory.
    pub fn new(kept: KeptTree, ids: Ids, fresh: FewRecords, focus: Option<ObjId>) -> RenewedTree
        requires rising { IsStrictlyIncreasing ids }
        requires becomes { IsObjectTree (renewed_tree kept fresh ids focus) }
        ensures { result ≡ record { before = kept; after = renewed_tree kept fresh ids focus; places = ids } }
    {
        let _root = kept.find(ObjId::ROOT);
        RenewedTree {
            kept,
            ids,
            fresh,
            focus,
        }
    }

    /// The tree before.
    pub fn before(&self) -> &KeptTree
        ensures { result.now ≡ self.now.before }
    {
        &self.kept
    }

    /// The ids at which the records may be others.
    pub fn places(&self) -> &[ObjId]
        ensures { result.now ≡ self.now.places }
    {
        self.ids.as_slice()
    }

    /// The tree that it becomes. It moves the fresh records and copies none: where n ids are renewed, it looks each of them up
    /// among the fresh records, in about n log n comparisons, and writes n places of the tree that is kept, which it never
    /// walks. It takes memory for the places, and none for what the records hold. At an error both trees are given up.
    pub fn settle(self) -> Result<KeptTree, NoMemory>
        ensures { IfOk result (λ t. t ≡ self.after) }
    {
        let RenewedTree {
            kept,
            ids,
            fresh,
            focus,
        } = self;
        let KeptTree { records, .. } = kept;
        let records = settled(records, fresh, ids)?;
        Ok(KeptTree { records, focus })
    }
}

/// Records with those of others at some ids, which rise. They are moved out of the others.
fn settled(records: IdMap<Record>, fresh: FewRecords, ids: Ids) -> Result<IdMap<Record>, NoMemory>
    requires rising { IsStrictlyIncreasing ids }
    ensures { IfOk result (λ es. es ≡ renewed records fresh ids) }
{
    let mut records = records;
    let mut fresh = fresh;
    for id in ids.into_vec() {
        let object = fresh.take_out(id);
        settle_one(&mut records, id, object)?;
    }
    Ok(records)
}

/// Puts a record at an id, in place of the one that was there, or takes that one away where there is none to put.
fn settle_one(
    records: &mut IdMap<Record>,
    id: ObjId,
    object: Option<Record>,
) -> Result<(), NoMemory>
    ensures { OnOk result (records.new ≡ with_at records.old id object) }
{
    match object {
        Some(object) => records.put(id, object),
        None => {
            records.remove(id);
            Ok(())
        }
    }
}

/// Copies of the records of a tree at some ids.
fn copied<T: TreeView>(alloc: Global, tree: &T, ids: Ids) -> Result<IdMap<Record>, NoMemory>
    ensures { IfOk result (λ es. es ≡ renewed [] (T.tree tree.now).entries ids) }
{
    let mut records = IdMap::new(alloc);
    for id in ids.into_vec() {
        let object = copy_found(alloc, tree.find(id))?;
        settle_one(&mut records, id, object)?;
    }
    Ok(records)
}

/// A copy of a record, where one was found.
fn copy_found(alloc: Global, found: Option<&Record>) -> Result<Option<Record>, NoMemory>
    ensures { IfOk result (λ copy. copy ≡ option_copied found.entry) }
{
    match found {
        Some(object) => Ok(Some(object.copy(alloc)?)),
        None => Ok(None),
    }
}
