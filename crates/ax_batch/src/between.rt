//! The batch from one tree to another.
ghost use Rattle.std.specs.Prelude.{◌≡◌, ◌++◌, IfOk, OnOk, option_copied};
ghost use Rattle.std.specs.List.{flat_map};
ghost use Rattle.ax_record.specs.Tree.{made_at};
ghost use Rattle.ax_batch.specs.Batches.{added_at, changed_at, removed_at, change_of, focus_change, batch_between, patched, Fits};

use crate::{Batch, Change, Changes, Records};
use ax_base::{Ids, NoMemory, ObjId};
use ax_record::{PropList, Record, TreeView, changed_props, rising_ids};
use std::alloc::Global;

/// The batch from one tree to another, exactly. It looks each object up once in each tree.
pub fn batch_between<A: TreeView, B: TreeView>(
    alloc: Global,
    a: &A,
    b: &B,
) -> Result<Batch, NoMemory>
    ensures { IfOk result (λ batch. batch ≡ batch_between (A.tree a.now) (B.tree b.now)) }
{
    let old_ids = rising_ids(alloc, a)?;
    let new_ids = rising_ids(alloc, b)?;
    let mut added = Records::new(alloc);
    let mut changed = Changes::new(alloc);
    let mut removed = Ids::new(alloc);
    push_new(alloc, a, b, new_ids.as_slice(), &mut added, &mut changed)?;
    push_old(a, b, old_ids.as_slice(), &mut removed)?;
    Ok(Batch {
        added,
        changed,
        removed,
        focus: focus_change(a.focus(), b.focus()),
    })
}

/// Of some ids, in their order, the objects that are new and those that differ.
fn push_new<A: TreeView, B: TreeView>(
    alloc: Global,
    a: &A,
    b: &B,
    ids: &[ObjId],
    added: &mut Records,
    changed: &mut Changes,
) -> Result<(), NoMemory>
    ensures added { OnOk result (added.new ≡ added.old ++ flat_map (made_at added_at (A.tree a.now) (B.tree b.now)) ids.now) }
    ensures changed { OnOk result (changed.new ≡ changed.old ++ flat_map (made_at changed_at (A.tree a.now) (B.tree b.now)) ids.now) }
{
    for id in ids {
        push_one(alloc, a.find(*id), b.find(*id), *id, added, changed)?;
    }
    Ok(())
}

/// An object that is new, or differs.
fn push_one(
    alloc: Global,
    old: Option<&Record>,
    new: Option<&Record>,
    id: ObjId,
    added: &mut Records,
    changed: &mut Changes,
) -> Result<(), NoMemory>
    ensures added { OnOk result (added.new ≡ added.old ++ added_at (option_copied old.entry) (option_copied new.entry) id) }
    ensures changed { OnOk result (changed.new ≡ changed.old ++ changed_at (option_copied old.entry) (option_copied new.entry) id) }
{
    let Some(new) = new else {
        return Ok(());
    };
    match old {
        None => added.push(new.copy(alloc)?),
        Some(old) => push_change(id, changed_props(alloc, old, new)?, changed),
    }
}

/// A change, where some properties differ.
fn push_change(id: ObjId, props: PropList, changed: &mut Changes) -> Result<(), NoMemory>
    ensures { OnOk result (changed.new ≡ changed.old ++ change_of id props) }
{
    if props.as_slice().is_empty() {
        return Ok(());
    }
    changed.push(Change { id, props })?;
    Ok(())
}

/// Of some ids, in their order, the objects that are gone.
fn push_old<A: TreeView, B: TreeView>(
    a: &A,
    b: &B,
    ids: &[ObjId],
    removed: &mut Ids,
) -> Result<(), NoMemory>
    ensures { OnOk result (removed.new ≡ removed.old ++ flat_map (made_at removed_at (A.tree a.now) (B.tree b.now)) ids.now) }
{
    for id in ids {
        push_gone(a.find(*id), b.find(*id), *id, removed)?;
    }
    Ok(())
}

/// An object that is gone.
fn push_gone(
    old: Option<&Record>,
    new: Option<&Record>,
    id: ObjId,
    removed: &mut Ids,
) -> Result<(), NoMemory>
    ensures { OnOk result (removed.new ≡ removed.old ++ removed_at (option_copied old.entry) (option_copied new.entry) id) }
{
    if old.is_some() && new.is_none() {
        removed.push(id)?;
    }
    Ok(())
}

/// The focus, where it differs.
fn focus_change(old: Option<ObjId>, new: Option<ObjId>) -> Option<Option<ObjId>>
    ensures { result ≡ focus_change old new }
{
    if old == new { None } else { Some(new) }
}

/// The law of batches: the batch from one tree to another fits the first and makes it the second. It does nothing.
pub fn batch_leads<A: TreeView, B: TreeView>(a: &A, b: &B)
    ensures leads { patched (A.tree a.now) (batch_between (A.tree a.now) (B.tree b.now)) ≡ B.tree b.now }
    ensures fits { Fits (A.tree a.now) (batch_between (A.tree a.now) (B.tree b.now)) }
{
    let _from = a.find(a.root());
    let _to = b.find(b.root());
}
