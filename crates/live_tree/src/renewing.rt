//! The records of objects that are made anew.
ghost use Rattle.std.specs.Prelude.{◌≡◌, ◌≤◌, ◌+◌, ◌*◌, ◌++◌, ◌∷◌, ◌&&◌, [], ℕ, length, not, nat_eq, true, false, if◌then◌else◌, Some, IfOk, OnOk};
ghost use Rattle.std.specs.List.{flat_map, filter};
ghost use Rattle.std.specs.List.Sorted.{IsStrictlyIncreasing};
ghost use Rattle.std.specs.Ordering.{nat_cmp};
ghost use Rattle.std.specs.BTreeMap.{insert_entry};
ghost use Rattle.ax_base.specs.Document.{Document, has, IsChild};
ghost use Rattle.ax_base.specs.Rects.{HasRectsWithin};
ghost use Rattle.ax_base.specs.Trees.{IsTree};
ghost use Rattle.ax_notice.specs.Candidates.{AreCandidates};
ghost use Rattle.ax_record.specs.Records.{tree, record_of, object_parent, is_object, focused_object};
ghost use Rattle.ax_dom.specs.Among.{is_in, IsClosedUp};
ghost use Rattle.ax_dom.specs.NodeMaps.{cell_at};
ghost use Rattle.ax_fresh.specs.Contents.{record_by};
ghost use Rattle.ax_fresh.specs.Gathering.{with_records};
ghost use Rattle.kids_pass.specs.Kids.{AreKidsOf};
ghost use Rattle.tree_diff.specs.Candidates.{moved_kids, HaveAllDiffering};
ghost use Rattle.live_tree.specs.Living.{HasFocusAmong, IsPresent, WasAlike, LeadsTo};
ghost use Rattle.live_tree.specs.Hosts.{host, host_at, host_kept};
ghost use Rattle.live_tree.specs.Remaking.{has_record, is_same, fresh_at, same_at, staying, IsOrderOf, AreHungOn, AreNotAmong};

use crate::hosts::Hosts;
use crate::passes::Passes;
use ax_base::{Ids, NoMemory, ObjId, Steps};
use ax_dom::{Cell, Dom, is_among};
use ax_fresh::RecordParts;
use ax_record::TreeView;
use ax_roles::node_role;
use kept_tree::{FewRecords, KeptTree, RenewedTree};
use kids_pass::Kids;
use std::alloc::Global;
use std::sync::ledger::Ledger;
use tree_diff::{candidates, moved_kids, sorted_once};

/// A tree that is kept, a document with what is kept of its nodes, and the nodes at which it may differ from the document of
/// the tree, by rising id and in an order from above.
#[derive(Drop)]
struct Renewal<'a> {
    alloc: Global,
    kept: &'a KeptTree,
    dom: &'a Dom,
    passes: &'a Passes,
    nodes: &'a [ObjId],
    down: &'a [ObjId],
}

/// The tree that becomes that of a document, and the ids of which something may be told, by rising number.
#[derive(Drop)]
pub(crate) struct Turned {
    /// The tree before, and the one that it becomes.
    pub(crate) tree: RenewedTree,
    /// The ids of which something may be told.
    pub(crate) near: Ids,
}

/// What makes the tree that is kept that of the document: the records at some ids, by rising number, and the focus. Of more
/// ids something may be told, which are `near`.
#[derive(Drop)]
struct Changes {
    ids: Ids,
    near: Ids,
    records: FewRecords,
    focus: Option<ObjId>,
}

/// Records that are made of some nodes, and the ids of the objects among these whose record stays.
#[derive(Drop)]
struct Made {
    records: FewRecords,
    same: Ids,
}

/// The records that are made so far, and the ids of the objects that hung elsewhere before.
#[derive(Drop)]
struct Fresh {
    records: FewRecords,
    moved: Ids,
}

/// What a tree becomes that is kept of a document which was as it is now at each node but some, which are `nodes` by rising
/// id and `down` in an order from above. It reads each of these twice at most, and no other node.
pub(crate) fn renewed_tree<L: Ledger>(
    alloc: Global,
    kept: KeptTree,
    dom: &Dom,
    passes: &Passes,
    nodes: &[ObjId],
    down: &[ObjId],
    steps: &mut Steps<L>,
) -> Result<Turned, NoMemory>
    requires present { IsPresent dom.now passes.now nodes.now }
    requires order { IsOrderOf dom.now nodes.now down.now }
    requires was { WasAlike kept dom.now nodes.now }
    ensures before { IfOk result (λ r. r.tree.before ≡ kept) }
    ensures after { IfOk result (λ r. r.tree.after ≡ tree dom.now) }
    ensures differ { IfOk result (λ r. HaveAllDiffering r.tree.before r.tree.after r.tree.places) }
    ensures told { IfOk result (λ r. AreCandidates r.tree.before r.tree.after r.near) }
    ensures counted { steps.new ≤ steps.old + 2 * length nodes.now }
{
    let Changes {
        ids,
        near,
        records,
        focus,
    } = changes_of(alloc, &kept, dom, passes, nodes, down, steps)?;
    let tree = RenewedTree::new(kept, ids, records, focus);
    Ok(Turned { tree, near })
}

/// What makes a tree that is kept that of the document.
fn changes_of<L: Ledger>(
    alloc: Global,
    kept: &KeptTree,
    dom: &Dom,
    passes: &Passes,
    nodes: &[ObjId],
    down: &[ObjId],
    steps: &mut Steps<L>,
) -> Result<Changes, NoMemory>
    requires present { IsPresent dom.now passes.now nodes.now }
    requires order { IsOrderOf dom.now nodes.now down.now }
    requires was { WasAlike kept.now dom.now nodes.now }
    ensures value { IfOk result (λ c. LeadsTo kept.now dom.now c.records c.ids c.near c.focus) }
    ensures counted { steps.new ≤ steps.old + 2 * length nodes.now }
{
    let renewal = Renewal {
        alloc,
        kept,
        dom,
        passes,
        nodes,
        down,
    };
    renewal.changes(steps)
}

impl Renewal<'_> {
    /// What makes the tree that is kept that of the document.
    fn changes<L: Ledger>(&self, steps: &mut Steps<L>) -> Result<Changes, NoMemory>
        requires present { IsPresent self.now.dom.now self.now.passes.now self.now.nodes.now }
        requires order { IsOrderOf self.now.dom.now self.now.nodes.now self.now.down.now }
        requires was { WasAlike self.now.kept.now self.now.dom.now self.now.nodes.now }
        ensures value { IfOk result (λ c. LeadsTo self.now.kept.now self.now.dom.now c.records c.ids c.near c.focus) }
        ensures counted { steps.new ≤ steps.old + 2 * length self.now.nodes.now }
    {
        let Made { records, same } = self.make_nodes(steps)?;
        let same = sorted_once(same);
        let turned = without(self.alloc, self.nodes, &same)?;
        let turned = turned.as_slice();
        let Fresh { records, moved } = self.with_moved(records, turned)?;
        let kids = &self.passes.kids;
        let near = candidates(self.kept, self.dom, kids, self.nodes, turned, moved)?;
        let ids = without(self.alloc, near.as_slice(), &same)?;
        let focus = focused_object(self.dom, kids, self.nodes, steps);
        Ok(Changes {
            ids,
            near,
            records,
            focus,
        })
    }

    /// The records of the objects among the nodes that have not the one that they had, and the ids of the others. The nodes
    /// are taken from above, so that the object on which each hangs is known. It reads each once.
    fn make_nodes<L: Ledger>(&self, steps: &mut Steps<L>) -> Result<Made, NoMemory>
        requires present { IsPresent self.now.dom.now self.now.passes.now self.now.nodes.now }
        requires order { IsOrderOf self.now.dom.now self.now.nodes.now self.now.down.now }
        ensures records { IfOk result (λ m. m.records ≡ with_records self.now.dom.now [] (flat_map (fresh_at self.now.kept.now self.now.dom.now) self.now.down.now)) }
        ensures same { IfOk result (λ m. m.same ≡ staying self.now.kept.now self.now.dom.now self.now.down.now) }
        ensures counted { steps.new ≤ steps.old + length self.now.down.now }
    {
        let mut made = Made {
            records: FewRecords::new(self.alloc),
            same: Ids::new(self.alloc),
        };
        let mut hosts = Hosts::new(self.alloc);
        let down = self.down;
        for id in down {
            self.put_node(*id, &mut hosts, &mut made, steps)?;
        }
        Ok(made)
    }

    /// Puts in the record of a node, where it is an object and the record is new; else keeps on which object its children
    /// hang. It reads the node once.
    fn put_node<L: Ledger>(
        &self,
        id: ObjId,
        hosts: &mut Hosts,
        made: &mut Made,
        steps: &mut Steps<L>,
    ) -> Result<(), NoMemory>
        requires present { IsPresent self.now.dom.now self.now.passes.now self.now.nodes.now }
        requires known { has self.now.dom.now id ≡ true }
        requires parent { (p : ℕ) → IsChild self.now.dom.now p id → host_at hosts.old p ≡ host_kept self.now.dom.now p }
        ensures records { OnOk result (made.new.records ≡ with_records self.now.dom.now made.old.records (fresh_at self.now.kept.now self.now.dom.now id)) }
        ensures same { OnOk result (made.new.same ≡ made.old.same ++ same_at self.now.kept.now self.now.dom.now id) }
        ensures hosts { OnOk result ((n : ℕ) → host_at hosts.new n ≡ (if nat_eq n id && not (is_object self.now.dom.now id) then Some (host self.now.dom.now id) else host_at hosts.old n)) }
        ensures counted { steps.new ≤ steps.old + 1 }
    {
        let Some(cell) = self.dom.cell(id, steps) else {
            return Ok(());
        };
        let above = hosts.above(cell.parent);
        if !is_object(self.dom, &self.passes.kids, id) {
            hosts.put(id, above)?;
            return Ok(());
        }
        self.put_object(id, cell, above, made)?;
        Ok(())
    }

    /// Puts in the record of an object, which hangs on `parent`. Where it has that record already, nothing of it is copied.
    fn put_object(
        &self,
        id: ObjId,
        cell: &Cell,
        parent: Option<ObjId>,
        made: &mut Made,
    ) -> Result<(), NoMemory>
        requires present { IsPresent self.now.dom.now self.now.passes.now self.now.nodes.now }
        requires cell { Some cell.now ≡ cell_at self.now.dom.now id }
        requires parent { parent ≡ object_parent self.now.dom.now id }
        ensures records { OnOk result (made.new.records ≡ with_records self.now.dom.now made.old.records (if not (is_same self.now.kept.now self.now.dom.now id) then id ∷ [] else [])) }
        ensures same { OnOk result (made.new.same ≡ made.old.same ++ (if is_same self.now.kept.now self.now.dom.now id then id ∷ [] else [])) }
    {
        let parts = RecordParts {
            cell,
            role: node_role(id, &cell.body),
            live: self.passes.contexts.context(id).live,
            parent,
            kids: self.passes.kids.kids(id),
            name: self.passes.saids.name(id),
            description: self.passes.saids.description(id),
        };
        if self.has_record(id, &parts) {
            made.same.push(id)?;
            return Ok(());
        }
        let object = parts.make(self.alloc)?;
        made.records.put(object)?;
        Ok(())
    }

    /// Whether an object of the tree that is kept has the record that is made of some parts.
    fn has_record(&self, id: ObjId, parts: &RecordParts<'_>) -> bool
        requires { HasRectsWithin parts.now.cell.now.body }
        ensures { result ≡ has_record self.now.kept.now id (record_by parts.now.cell.now parts.now.role parts.now.live parts.now.parent parts.now.kids.now parts.now.name.now parts.now.description.now) }
    {
        match self.kept.find(id) {
            Some(object) => parts.is_record(object),
            None => false,
        }
    }

    /// Records, with those of the objects that hang on one of some nodes but hung elsewhere before.
    fn with_moved(&self, records: FewRecords, turned: &[ObjId]) -> Result<Fresh, NoMemory>
        requires present { IsPresent self.now.dom.now self.now.passes.now self.now.nodes.now }
        requires was { WasAlike self.now.kept.now self.now.dom.now self.now.nodes.now }
        ensures records { IfOk result (λ f. f.records ≡ with_records self.now.dom.now records (flat_map (moved_kids self.now.kept.now self.now.dom.now self.now.nodes.now) turned.now)) }
        ensures moved { IfOk result (λ f. f.moved ≡ flat_map (moved_kids self.now.kept.now self.now.dom.now self.now.nodes.now) turned.now) }
    {
        let mut fresh = Fresh {
            records,
            moved: Ids::new(self.alloc),
        };
        for id in turned {
            self.put_hung(*id, &mut fresh)?;
        }
        Ok(fresh)
    }

    /// Puts in the records of the objects that hang on a node but hung elsewhere before. It reads no node.
    fn put_hung(&self, id: ObjId, fresh: &mut Fresh) -> Result<(), NoMemory>
        requires present { IsPresent self.now.dom.now self.now.passes.now self.now.nodes.now }
        requires was { WasAlike self.now.kept.now self.now.dom.now self.now.nodes.now }
        ensures records { OnOk result (fresh.new.records ≡ with_records self.now.dom.now fresh.old.records (moved_kids self.now.kept.now self.now.dom.now self.now.nodes.now id)) }
        ensures moved { OnOk result (fresh.new.moved ≡ fresh.old.moved ++ moved_kids self.now.kept.now self.now.dom.now self.now.nodes.now id) }
    {
        if !is_object(self.dom, &self.passes.kids, id) {
            return Ok(());
        }
        let kids = self.passes.kids.kids(id);
        let hung = moved_kids(self.alloc, self.kept, self.nodes, id, kids)?;
        self.put_each(id, hung.as_slice(), fresh)?;
        Ok(())
    }

    /// Puts in the records of some objects that hang on one and are as they were.
    fn put_each(&self, above: ObjId, hung: &[ObjId], fresh: &mut Fresh) -> Result<(), NoMemory>
        requires tree { IsTree self.now.dom.now }
        requires was { WasAlike self.now.kept.now self.now.dom.now self.now.nodes.now }
        requires hung { AreHungOn self.now.dom.now above hung.now }
        requires as_they_were { AreNotAmong self.now.nodes.now hung.now }
        ensures records { OnOk result (fresh.new.records ≡ with_records self.now.dom.now fresh.old.records hung.now) }
        ensures moved { OnOk result (fresh.new.moved ≡ fresh.old.moved ++ hung.now) }
    {
        for kid in hung {
            self.put_moved(*kid, above, fresh)?;
            fresh.moved.push(*kid)?;
        }
        Ok(())
    }

    /// Puts in the record of an object that is as it was, but hangs on another.
    fn put_moved(&self, id: ObjId, above: ObjId, fresh: &mut Fresh) -> Result<(), NoMemory>
        requires tree { IsTree self.now.dom.now }
        requires was { WasAlike self.now.kept.now self.now.dom.now self.now.nodes.now }
        requires hung { AreHungOn self.now.dom.now above (id ∷ []) }
        requires as_it_was { is_in self.now.nodes.now id ≡ false }
        ensures records { OnOk result (fresh.new.records ≡ insert_entry nat_cmp fresh.old.records id (record_of self.now.dom.now id)) }
        ensures moved { OnOk result (fresh.new.moved ≡ fresh.old.moved) }
    {
        let Some(kept) = self.kept.find(id) else {
            return Ok(());
        };
        let mut object = kept.copy(self.alloc)?;
        object.parent = Some(above);
        fresh.records.put(object)?;
        Ok(())
    }
}

/// Those of some ids that are not among others, which rise.
fn without(alloc: Global, ids: &[ObjId], others: &Ids) -> Result<Ids, NoMemory>
    requires { IsStrictlyIncreasing others.now }
    ensures { IfOk result (λ left. left ≡ filter (λ n. not (is_in others.now n)) ids.now) }
{
    let others = others.as_slice();
    let mut left = Ids::new(alloc);
    for id in ids {
        push_unless(is_among(others, *id), *id, &mut left)?;
    }
    Ok(left)
}

/// Adds an id, or leaves it out.
fn push_unless(unwanted: bool, id: ObjId, out: &mut Ids) -> Result<(), NoMemory>
    ensures { OnOk result (out.new ≡ (if not unwanted then out.old ++ id ∷ [] else out.old)) }
{
    if unwanted {
        return Ok(());
    }
    out.push(id)
}

/// Whether a node is an object of the tree of its document, of which `kids` are the kids. It reads no node.
fn is_object(dom: &Dom, kids: &Kids, id: ObjId) -> bool
    requires tree { IsTree dom.now }
    requires kids { AreKidsOf dom.now kids.now }
    ensures { result ≡ is_object dom.now id }
{
    dom.has(id) && kids.is_object(id)
}

/// The object that has the focus: the focused node, or the nearest of its ancestors that is an object. The focused node and its
/// ancestors are among `nodes`, and are read once at most.
fn focused_object<L: Ledger>(
    dom: &Dom,
    kids: &Kids,
    nodes: &[ObjId],
    steps: &mut Steps<L>,
) -> Option<ObjId>
    requires tree { IsTree dom.now }
    requires kids { AreKidsOf dom.now kids.now }
    requires closed { IsClosedUp dom.now nodes.now }
    requires focus { HasFocusAmong dom.now nodes.now }
    ensures value { result ≡ focused_object dom.now }
    ensures counted { steps.new ≤ steps.old + length nodes.now }
{
    let mut at = dom.focus()?;
    'up: while !is_object(dom, kids, at) {
        at = dom.parent(at, steps)?;
    }
    Some(at)
}
