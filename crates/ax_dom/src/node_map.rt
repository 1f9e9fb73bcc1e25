//! The nodes of the document by their ids.
ghost use Rattle.std.specs.Prelude.{◌≡◌, ◌==◌, false, ◌≤◌, ℕ, length, OnOk, OnErr, [], Some, None, IsSome, is_some, option_copied, ◌<◌, not, nat_eq, filter, IfOk};
ghost use Rattle.std.specs.List.{insert, list_any};
ghost use Rattle.std.specs.Option.{option_map_or};
ghost use Rattle.std.specs.List.Sorted.{IsStrictlyIncreasing};
ghost use Rattle.std.specs.Ordering.{nat_cmp};
ghost use Rattle.std.specs.BTreeMap.{is_at, insert_entry};
ghost use Rattle.std.specs.Map.{keys_of, remove_entry, set_value};
ghost use Rattle.ax_base.specs.Trees.{HasNoRepeats};
ghost use Rattle.ax_dom.specs.declared.cell.NodeEntry.{NodeEntry};
ghost use Rattle.ax_dom.specs.Copies.{AreCopiedAt, with_entry};
ghost use Rattle.ax_dom.specs.NodeMaps.{entry_at};
ghost use Rattle.ax_dom.specs.Bodies.{entry_after};
ghost use Rattle.ax_dom.specs.Places.{placed, placed_before, without};
ghost use Rattle.ax_dom.specs.Rewrites.{IsRewritten, unlinked, with_list, relinked, with_parent, rebased_at, rebased_among};

use crate::bodies::amend_body;
use crate::cell::NodeEntry;
use crate::edit::Edit;
use ax_base::{IdMap, Ids, MAX_DEPTH, NoMemory, ObjId, first_place};
use std::alloc::Global;
use std::marker::Model;

/// The nodes of the document by their ids. A clause sees them as a list by rising id.
#[derive(Drop)]
pub struct NodeMap {
    map: IdMap<NodeEntry>,
}

impl Model for NodeMap {
    ghost use Rattle.std.specs.Prelude.{List, ℕ};
    ghost use Rattle.ax_dom.specs.declared.cell.NodeEntry.{NodeEntry};

    ghost Value = { List (ℕ × NodeEntry) };

    ghost view = { λ a. a.map };
}

impl NodeMap {
    /// No nodes.
    pub fn new(alloc: Global) -> NodeMap
        ensures { result ≡ [] }
    {
        NodeMap {
            map: IdMap::new(alloc),
        }
    }

    /// The node of an id.
    pub fn get(&self, id: ObjId) -> Option<&NodeEntry>
        ensures { option_copied result ≡ entry_at self.now id }
    {
        self.map.get(id)
    }

    /// Whether there is a node of an id.
    pub fn has(&self, id: ObjId) -> bool
        ensures { result ≡ is_some (entry_at self.now id) }
    {
        self.map.has(id)
    }

    /// The nodes of some ids, copied.
    pub fn copy_of(&self, alloc: Global, ids: &[ObjId]) -> Result<NodeMap, NoMemory>
        ensures { IfOk result (λ entries. AreCopiedAt self.now entries ids.now) }
    {
        let mut copy = NodeMap::new(alloc);
        for id in ids {
            copy.add_copy(alloc, self, *id)?;
        }
        Ok(copy)
    }

    /// Adds a copy of the node of an id that others have, if they have it.
    fn add_copy(&mut self, alloc: Global, from: &NodeMap, id: ObjId) -> Result<(), NoMemory>
        ensures { OnOk result (self.new ≡ with_entry self.old id (entry_at from.now id)) }
    {
        if let Some(entry) = from.get(id) {
            let copy = entry.copy(alloc)?;
            self.add(id, copy)?;
        }
        Ok(())
    }

    /// Adds a node. At an error nothing changes.
    pub fn add(&mut self, id: ObjId, entry: NodeEntry) -> Result<(), NoMemory>
        ensures ok { OnOk result (self.new ≡ insert_entry nat_cmp self.old id entry) }
        ensures err { OnErr result (self.new ≡ self.old) }
    {
        self.map.put(id, entry)
    }

    /// Takes a node away.
    pub fn remove(&mut self, id: ObjId)
        ensures { self.new ≡ remove_entry (is_at (nat_cmp id)) self.old }
    {
        self.map.remove(id);
    }

    /// Adds a node among the children of another. At an error nothing changes.
    pub fn insert_child(
        &mut self,
        id: ObjId,
        entry: NodeEntry,
        into: ObjId,
        before: &Option<ObjId>,
    ) -> Result<(), NoMemory>
        requires known { IsSome (entry_at self.old into) }
        requires fresh { entry_at self.old id ≡ None }
        ensures ok { OnOk result ((s : NodeEntry) → entry_at self.old into ≡ Some s → self.new ≡ set_value (is_at (nat_cmp into)) (insert_entry nat_cmp self.old id entry) (record s { children = placed before.now id s.children })) }
        ensures err { OnErr result (self.new ≡ self.old) }
    {
        self.add(id, entry)?;
        match self.link_child(into, before, id) {
            Ok(()) => Ok(()),
            Err(e) => {
                self.remove(id);
                Err(e)
            }
        }
    }

    /// Puts an id before another among the children of a node, or as the last one. At an error nothing changes.
    pub fn link_child(
        &mut self,
        into: ObjId,
        before: &Option<ObjId>,
        id: ObjId,
    ) -> Result<(), NoMemory>
        requires { IsSome (entry_at self.old into) }
        ensures ok { OnOk result ((s : NodeEntry) → entry_at self.old into ≡ Some s → self.new ≡ set_value (is_at (nat_cmp into)) self.old (record s { children = placed before.now id s.children })) }
        ensures err { OnErr result (self.new ≡ self.old) }
    {
        if let Some(entry) = self.map.get_mut(into) {
            place_among(&mut entry.children, before, id)?;
        }
        Ok(())
    }

    /// Does an edit that changes a node alone. At an error nothing changes.
    pub fn amend(&mut self, alloc: Global, id: ObjId, e: Edit) -> Result<(), NoMemory>
        requires { IsSome (entry_at self.old id) }
        ensures ok { OnOk result ((s : NodeEntry) → entry_at self.old id ≡ Some s → self.new ≡ set_value (is_at (nat_cmp id)) self.old (entry_after e s)) }
        ensures err { OnErr result (self.new ≡ self.old) }
    {
        if let Some(entry) = self.map.get_mut(id) {
            amend_body(alloc, &mut entry.cell.body, e)?;
        }
        Ok(())
    }

    /// Removes an id from the children of its parent, if it has one.
    pub fn unlink_child(&mut self, from: &Option<ObjId>, id: ObjId)
        ensures { IsRewritten self.old self.new (unlinked from.now id) }
    {
        if let Some(parent) = from {
            if let Some(entry) = self.map.get_mut(*parent) {
                entry.children.take_out(id);
            }
        }
    }

    /// Gives a node other children.
    pub fn set_children(&mut self, id: ObjId, list: Ids)
        ensures { IsRewritten self.old self.new (with_list id list) }
    {
        if let Some(entry) = self.map.get_mut(id) {
            entry.children = list;
        }
    }

    /// Takes an id out of the children of `from`, its parent, if it has one, and gives `into` other children. Where both are
    /// the same node, the list that it had is not looked at.
    pub fn relink_child(&mut self, from: &Option<ObjId>, id: ObjId, into: ObjId, list: Ids)
        ensures { IsRewritten self.old self.new (relinked from.now id into list) }
    {
        if !is_parent(from, into) {
            self.unlink_child(from, id);
        }
        self.set_children(into, list);
    }

    /// Gives a node another parent.
    pub fn set_parent(&mut self, id: ObjId, parent: ObjId)
        ensures { IsRewritten self.old self.new (with_parent id parent) }
    {
        if let Some(entry) = self.map.get_mut(id) {
            entry.cell.parent = Some(parent);
        }
    }

    /// Re-bases the depth of each of some nodes: `depth - top + base`.
    pub fn rebase_depths(&mut self, ids: &[ObjId], base: u32, top: u32)
        requires once { HasNoRepeats ids.now }
        requires low { base ≤ 256 }
        ensures { IsRewritten self.old self.new (rebased_among ids.now base top) }
    {
        for id in ids {
            self.rebase_depth(*id, base, top);
        }
    }

    /// Re-bases the depth of a node: `depth - top + base`.
    fn rebase_depth(&mut self, id: ObjId, base: u32, top: u32)
        requires { base ≤ 256 }
        ensures { IsRewritten self.old self.new (rebased_at id base top) }
    {
        if let Some(entry) = self.map.get_mut(id) {
            let below = u32::from(entry.cell.depth)
                .saturating_sub(top)
                .min(MAX_DEPTH);
            entry.cell.depth = (base + below).min(MAX_DEPTH) as u8;
        }
    }

    /// Takes some nodes away.
    pub fn remove_all(&mut self, ids: &[ObjId])
        requires { IsStrictlyIncreasing (keys_of self.old) }
        ensures { self.new ≡ filter (λ e. not (list_any (nat_eq e.0) ids.now)) self.old }
    {
        for id in ids {
            self.remove(*id);
        }
    }
}

/// Whether a node is the parent of another, which has `parent`.
fn is_parent(parent: &Option<ObjId>, id: ObjId) -> bool
    ensures { result ≡ option_map_or (λ p. p == id) parent.now false }
{
    match parent {
        Some(p) => p.0 == id.0,
        None => false,
    }
}

/// Puts an id before another of a list, or at the end. At an error nothing changes.
pub fn place_among(ids: &mut Ids, before: &Option<ObjId>, id: ObjId) -> Result<(), NoMemory>
    ensures ok { OnOk result (ids.new ≡ placed before.now id ids.old) }
    ensures err { OnErr result (ids.new ≡ ids.old) }
{
    match before {
        None => ids.push(id),
        Some(b) => {
            let at = place_of(ids.as_slice(), *b);
            ids.insert(at, id)
        }
    }
}

/// The place of the first of some ids that is `b`, or their number where none is.
fn place_of(ids: &[ObjId], b: ObjId) -> usize
    ensures within { result ≤ length ids.now }
    ensures place { (id : ℕ) → insert ids.now result id ≡ placed_before b id ids.now }
{
    first_place(ids, 0, b)
}

/// Some ids with one of them before another, or at the end, and nowhere else.
pub fn copy_with_moved(
    alloc: Global,
    ids: &[ObjId],
    before: &Option<ObjId>,
    id: ObjId,
) -> Result<Ids, NoMemory>
    ensures { IfOk result (λ list. list ≡ placed before.now id (without id ids.now)) }
{
    let mut list = copy_without(alloc, ids, id)?;
    place_among(&mut list, before, id)?;
    Ok(list)
}

/// Some ids without one.
fn copy_without(alloc: Global, ids: &[ObjId], id: ObjId) -> Result<Ids, NoMemory>
    ensures { IfOk result (λ list. list ≡ without id ids.now) }
{
    let mut list = Ids::from_vec(Vec::from_slice(alloc, ids)?);
    list.take_out(id);
    Ok(list)
}
