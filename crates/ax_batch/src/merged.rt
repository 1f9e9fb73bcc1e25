//! Batches merged into one.
ghost use Rattle.std.specs.Prelude.{◌≡◌, ℕ, ◌+◌, ◌<◌, ◌≤◌, ◌++◌, ◌∷◌, [], Some, map, length, nat_eq, MatchResult, IfOk, OnOk};
ghost use Rattle.std.specs.HashMap.{spare, hash_map_len, IsUnique};
ghost use Rattle.std.specs.Map.{keys_of, remove_entry};
ghost use Rattle.std.specs.BTreeMap.{is_at};
ghost use Rattle.std.specs.Ordering.{nat_cmp};
ghost use Rattle.ax_batch.specs.Rising.{by_rising};
ghost use Rattle.ax_batch.specs.Fates.{joint_update, removals, changes, additions, set_fate, set_fates, fate_at, made_by, made_of, added_by, changed_by, removed_by, merged, no_change, IsInOrder, FitsEach};
ghost use Rattle.ax_batch.specs.Batches.{batch_between, patched};
ghost use Rattle.ax_batch.specs.Rooms.{HasRoom, HasListRoom};
ghost use Rattle.ax_batch.specs.declared.fate.Fate.TheVariants.{Added, Changed, Removed};

use crate::fate::{Fate, joint_fate};
use crate::roomy::Roomy;
use crate::{Batch, Change, Changes, Records};
use ax_base::{Ids, NoMemory, ObjId};
use ax_record::{Record, TreeView};
use indexmap::IndexMap;
use std::alloc::Global;
use std::marker::Model;

/// Room for the lists of a batch, and for all its ids.
#[derive(Drop)]
struct Room {
    ids: Roomy<ObjId>,
    added: Roomy<Record>,
    changed: Roomy<Change>,
    removed: Roomy<ObjId>,
}

/// Batches merged into one, which grows by what a further batch names and no more. A clause sees it as that batch.
#[derive(Drop)]
pub struct Merged {
    fates: IndexMap<u32, Fate>,
    focus: Option<Option<ObjId>>,
    room: Room,
}

impl Model for Merged {
    ghost use Rattle.std.specs.HashMap.{hash_map_len};
    ghost use Rattle.ax_batch.specs.declared.batch.Batch.{Batch};
    ghost use Rattle.ax_batch.specs.Fates.{batch_of, AreOwn};
    ghost use Rattle.ax_batch.specs.Rising.{by_rising};
    ghost use Rattle.ax_batch.specs.Rooms.{HasRoom};

    ghost Value = { Batch };

    ghost view = { λ a. batch_of (by_rising a.fates.entries) a.focus };

    ghost invariant = { λ a. HasRoom (hash_map_len a.fates) a.room × AreOwn (by_rising a.fates.entries) };
}

impl Merged {
    /// The batch that does nothing. It takes no memory.
    #[tactic(auto, unfolding(crate::specs::Rising::by_rising, crate::specs::Fates::made_by))]
    pub fn new(alloc: Global) -> Merged
        ensures { result ≡ no_change }
    {
        Merged {
            fates: IndexMap::new(alloc),
            focus: None,
            room: Room {
                ids: Roomy::new(alloc),
                added: Roomy::new(alloc),
                changed: Roomy::new(alloc),
                removed: Roomy::new(alloc),
            },
        }
    }

    /// Merges a batch that comes next into this one. It takes a hash step and a copy of what it meets for each object that the
    /// batch names, and never walks what was there. First it makes all that needs memory; what is left cannot fail, so that at
    /// `Err` nothing changes.
    pub fn take_in(&mut self, alloc: Global, batch: Batch) -> Result<(), NoMemory>
        ensures { MatchResult result (λ _. self.new ≡ merged self.old batch) (λ _. self.new ≡ self.old) }
    {
        let Batch {
            added,
            changed,
            removed,
            focus,
        } = batch;
        let updates = updates(alloc, &self.fates, removed, changed, added)?;
        let Some(most) = self.fates.len().checked_add(updates.len()) else {
            return Err(NoMemory);
        };
        self.fates.reserve(updates.len())?;
        make_room(&mut self.room, most)?;
        set_all(&mut self.fates, updates);
        self.focus = focus.or(self.focus);
        Ok(())
    }

    /// The batch, with its lists by rising id. It takes no memory.
    pub fn into_batch(self) -> Batch
        ensures { result ≡ self }
    {
        let Merged {
            mut fates,
            focus,
            room,
        } = self;
        let Room {
            mut ids,
            mut added,
            mut changed,
            mut removed,
        } = room;
        list_keys(&fates, &mut ids);
        let mut ids = ids.into_vec();
        ids.sort_unstable();
        move_all(&mut fates, ids, &mut added, &mut changed, &mut removed);
        Batch {
            added: Records::from_vec(added.into_vec()),
            changed: Changes::from_vec(changed.into_vec()),
            removed: Ids::from_vec(removed.into_vec()),
            focus,
        }
    }
}

/// Makes room for as many entries in each list.
fn make_room(room: &mut Room, most: usize) -> Result<(), NoMemory>
    ensures keeps { (n : ℕ) → HasRoom n room.old → HasRoom n room.new }
    ensures ok { (n : ℕ) → HasRoom n room.old → OnOk result (HasRoom most room.new) }
{
    room.ids.make_room(most)?;
    room.added.make_room(most)?;
    room.changed.make_room(most)?;
    room.removed.make_room(most)?;
    Ok(())
}

/// What becomes of each object that a batch names.
fn updates(
    alloc: Global,
    fates: &IndexMap<u32, Fate>,
    removed: Ids,
    changed: Changes,
    added: Records,
) -> Result<Vec<(u32, Option<Fate>)>, NoMemory>
    ensures { IfOk result (λ us. us.items ≡ map (joint_update (by_rising fates.now.entries)) (removals removed ++ (changes changed ++ additions added))) }
{
    let mut updates = Vec::new(alloc);
    update_removed(alloc, fates, removed, &mut updates)?;
    update_changed(alloc, fates, changed, &mut updates)?;
    update_added(alloc, fates, added, &mut updates)?;
    Ok(updates)
}

/// What becomes of the objects that are removed.
fn update_removed(
    alloc: Global,
    fates: &IndexMap<u32, Fate>,
    removed: Ids,
    updates: &mut Vec<(u32, Option<Fate>)>,
) -> Result<(), NoMemory>
    ensures { OnOk result (updates.new.items ≡ updates.old.items ++ map (joint_update (by_rising fates.now.entries)) (removals removed)) }
{
    for id in removed.into_vec() {
        push_update(alloc, fates, id, Fate::Removed, updates)?;
    }
    Ok(())
}

/// What becomes of the objects that are changed.
fn update_changed(
    alloc: Global,
    fates: &IndexMap<u32, Fate>,
    changed: Changes,
    updates: &mut Vec<(u32, Option<Fate>)>,
) -> Result<(), NoMemory>
    ensures { OnOk result (updates.new.items ≡ updates.old.items ++ map (joint_update (by_rising fates.now.entries)) (changes changed)) }
{
    for change in changed.into_vec() {
        let Change { id, props } = change;
        push_update(alloc, fates, id, Fate::Changed(props), updates)?;
    }
    Ok(())
}

/// What becomes of the objects that are added.
fn update_added(
    alloc: Global,
    fates: &IndexMap<u32, Fate>,
    added: Records,
    updates: &mut Vec<(u32, Option<Fate>)>,
) -> Result<(), NoMemory>
    ensures { OnOk result (updates.new.items ≡ updates.old.items ++ map (joint_update (by_rising fates.now.entries)) (additions added)) }
{
    for object in added.into_vec() {
        let id = object.id;
        push_update(alloc, fates, id, Fate::Added(object), updates)?;
    }
    Ok(())
}

/// What becomes of an object.
fn push_update(
    alloc: Global,
    fates: &IndexMap<u32, Fate>,
    id: ObjId,
    fate: Fate,
    updates: &mut Vec<(u32, Option<Fate>)>,
) -> Result<(), NoMemory>
    ensures { OnOk result (updates.new.items ≡ updates.old.items ++ joint_update (by_rising fates.now.entries) (id, fate) ∷ []) }
{
    let key = id.number();
    let next = joint_fate(alloc, fates.get(&key), fate)?;
    updates.push((key, next))?;
    Ok(())
}

/// Sets what becomes of some objects. There is room for them.
fn set_all(fates: &mut IndexMap<u32, Fate>, updates: Vec<(u32, Option<Fate>)>)
    requires { length updates.items ≤ spare fates.old }
    ensures fates { by_rising fates.new.entries ≡ set_fates (by_rising fates.old.entries) updates.items }
    ensures few { hash_map_len fates.new ≤ hash_map_len fates.old + length updates.items }
{
    for update in updates {
        let (key, fate) = update;
        set_one(fates, key, fate);
    }
}

/// Sets what becomes of an object. There is room for it.
fn set_one(fates: &mut IndexMap<u32, Fate>, key: u32, fate: Option<Fate>)
    requires { 0 < spare fates.old }
    ensures fates { by_rising fates.new.entries ≡ set_fate (by_rising fates.old.entries) key fate }
    ensures few { hash_map_len fates.new ≤ hash_map_len fates.old + 1 }
    ensures room { spare fates.old ≤ spare fates.new + 1 }
{
    match fate {
        None => take_out(fates, key),
        Some(fate) => put(fates, key, fate),
    }
}

/// Takes the fate of an object out.
fn take_out(fates: &mut IndexMap<u32, Fate>, key: u32)
    ensures fates { by_rising fates.new.entries ≡ remove_entry (is_at (nat_cmp key)) (by_rising fates.old.entries) }
    ensures few { hash_map_len fates.new ≤ hash_map_len fates.old }
    ensures room { spare fates.old ≤ spare fates.new }
{
    fates.swap_remove(&key);
}

/// Puts a fate in. There is room for it.
fn put(fates: &mut IndexMap<u32, Fate>, key: u32, fate: Fate)
    requires { 0 < spare fates.old }
    ensures fates { by_rising fates.new.entries ≡ set_fate (by_rising fates.old.entries) key (Some fate) }
    ensures few { hash_map_len fates.new ≤ hash_map_len fates.old + 1 }
    ensures room { spare fates.old ≤ spare fates.new + 1 }
{
    match fates.insert(key, fate) {
        Ok(_) => {}
        Err(_) => unreachable!(),
    }
}

/// Lists the ids that have fates.
fn list_keys(fates: &IndexMap<u32, Fate>, ids: &mut Roomy<ObjId>)
    requires { hash_map_len fates.now ≤ ids.old.1 }
    ensures keys { ids.new.0 ≡ ids.old.0 ++ keys_of fates.now.entries }
    ensures unique { IsUnique nat_eq fates.now }
{
    for index in 0..fates.len() {
        let Some((key, _)) = fates.get_index(index) else {
            unreachable!()
        };
        ids.push(ObjId(*key));
    }
}

/// Moves the fates of some ids into the lists. They are those of the fates, by rising id.
fn move_all(
    fates: &mut IndexMap<u32, Fate>,
    ids: Vec<ObjId>,
    added: &mut Roomy<Record>,
    changed: &mut Roomy<Change>,
    removed: &mut Roomy<ObjId>,
)
    requires keys { ids.items ≡ keys_of (by_rising fates.old.entries) }
    requires room { HasListRoom (length ids.items) added.old changed.old removed.old }
    ensures added { added.new.0 ≡ added.old.0 ++ made_by added_by (by_rising fates.old.entries) }
    ensures changed { changed.new.0 ≡ changed.old.0 ++ made_by changed_by (by_rising fates.old.entries) }
    ensures removed { removed.new.0 ≡ removed.old.0 ++ made_by removed_by (by_rising fates.old.entries) }
{
    for id in ids {
        move_one(fates, id, added, changed, removed);
    }
}

/// Moves the fate of an id into the list that it belongs to.
fn move_one(
    fates: &mut IndexMap<u32, Fate>,
    id: ObjId,
    added: &mut Roomy<Record>,
    changed: &mut Roomy<Change>,
    removed: &mut Roomy<ObjId>,
)
    requires { HasListRoom 1 added.old changed.old removed.old }
    ensures fates { by_rising fates.new.entries ≡ remove_entry (is_at (nat_cmp id)) (by_rising fates.old.entries) }
    ensures added { added.new.0 ≡ added.old.0 ++ made_of added_by id (fate_at (by_rising fates.old.entries) id) }
    ensures changed { changed.new.0 ≡ changed.old.0 ++ made_of changed_by id (fate_at (by_rising fates.old.entries) id) }
    ensures removed { removed.new.0 ≡ removed.old.0 ++ made_of removed_by id (fate_at (by_rising fates.old.entries) id) }
    ensures room { (n : ℕ) → HasListRoom (n + 1) added.old changed.old removed.old → HasListRoom n added.new changed.new removed.new }
{
    let key = id.number();
    if let Some(fate) = fates.swap_remove(&key) {
        push_fate(id, fate, added, changed, removed);
    }
}

/// Adds a fate to the list that it belongs to.
fn push_fate(
    id: ObjId,
    fate: Fate,
    added: &mut Roomy<Record>,
    changed: &mut Roomy<Change>,
    removed: &mut Roomy<ObjId>,
)
    requires { HasListRoom 1 added.old changed.old removed.old }
    ensures added { added.new.0 ≡ added.old.0 ++ added_by id fate }
    ensures changed { changed.new.0 ≡ changed.old.0 ++ changed_by id fate }
    ensures removed { removed.new.0 ≡ removed.old.0 ++ removed_by id fate }
    ensures room { (n : ℕ) → HasListRoom (n + 1) added.old changed.old removed.old → HasListRoom n added.new changed.new removed.new }
{
    match fate {
        Fate::Added(object) => added.push(object),
        Fate::Changed(props) => changed.push(Change { id, props }),
        Fate::Removed => removed.push(id),
    }
}

/// The batch that does what two do, one after the other. At `Err` both are given up.
#[tactic(auto, using(crate::proofs::Merging::from_nothing))]
pub fn merge(alloc: Global, first: Batch, second: Batch) -> Result<Batch, NoMemory>
    ensures { IfOk result (λ batch. batch ≡ merged first second) }
{
    let mut both = Merged::new(alloc);
    both.take_in(alloc, first)?;
    both.take_in(alloc, second)?;
    Ok(both.into_batch())
}

/// The law of merged batches: a tree that takes over what two make together is the tree that takes over the first and then the
/// second. It does nothing.
pub fn merge_patches<T: TreeView>(t: &T, first: &Batch, second: &Batch)
    requires first { IsInOrder first.now }
    requires second { IsInOrder second.now }
    requires fits { FitsEach (T.tree t.now) first.now }
    ensures { patched (T.tree t.now) (merged first.now second.now) ≡ patched (patched (T.tree t.now) first.now) second.now }
{
    let _root = t.find(t.root());
    let _first = first;
    let _second = second;
}

/// An exact batch is in order, and each fate in it fits the first tree, so that the law of merged batches holds of it. It does
/// nothing.
pub fn batch_is_in_order<A: TreeView, B: TreeView>(a: &A, b: &B)
    ensures order { IsInOrder (batch_between (A.tree a.now) (B.tree b.now)) }
    ensures fits { FitsEach (A.tree a.now) (batch_between (A.tree a.now) (B.tree b.now)) }
{
    let _from = a.find(a.root());
    let _to = b.find(b.root());
}

/// Two exact batches, merged, lead to the last tree. It does nothing.
pub fn merge_leads<A: TreeView, B: TreeView, C: TreeView>(a: &A, b: &B, c: &C)
    ensures { patched (A.tree a.now) (merged (batch_between (A.tree a.now) (B.tree b.now)) (batch_between (B.tree b.now) (C.tree c.now))) ≡ C.tree c.now }
{
    let _first = a.find(a.root());
    let _second = b.find(b.root());
    let _third = c.find(c.root());
}
