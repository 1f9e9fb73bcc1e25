//! The batch from one tree to another, made from some ids alone.
ghost use Rattle.std.specs.Prelude.{◌≡◌, ◌++◌, IfOk, OnOk, option_copied};
ghost use Rattle.std.specs.List.{flat_map};
ghost use Rattle.ax_record.specs.Tree.{made_at};
ghost use Rattle.ax_batch.specs.Batches.{added_at, changed_at, removed_at, change_of, focus_change, batch_between};
ghost use Rattle.tree_diff.specs.Candidates.{HaveAllDiffering};

use ax_base::{Ids, NoMemory, ObjId};
use ax_batch::{Batch, Change, Changes, Records};
use ax_record::{PropList, Record, TreeView, changed_props};
use std::alloc::Global;

/// The batch from one tree to another, exactly, where only some ids are looked at: rising ids that have each at which
/// the trees differ. It looks each up once in each tree, and compares the records that both have of it.
pub fn batch_among<A: TreeView, B: TreeView>(
    alloc: Global,
    a: &A,
    b: &B,
    ids: &[ObjId],
) -> Result<Batch, NoMemory>
    requires { HaveAllDiffering (A.tree a.now) (B.tree b.now) ids.now }
    ensures { IfOk result (λ batch. batch ≡ batch_between (A.tree a.now) (B.tree b.now)) }
{
    let _from = a.find(a.root());
    let _to = b.find(b.root());
    let focus = focus_change(a.focus(), b.focus());
    let mut batch = Batch {
        added: Records::new(alloc),
        changed: Changes::new(alloc),
        removed: Ids::new(alloc),
        focus,
    };
    push_differing(alloc, a, b, ids, &mut batch)?;
    Ok(batch)
}

/// Of some ids, in their order, the objects that are new, those that differ and those that are gone.
fn push_differing<A: TreeView, B: TreeView>(
    alloc: Global,
    a: &A,
    b: &B,
    ids: &[ObjId],
    batch: &mut Batch,
) -> Result<(), NoMemory>
    ensures added { OnOk result (batch.new.added ≡ batch.old.added ++ flat_map (made_at added_at (A.tree a.now) (B.tree b.now)) ids.now) }
    ensures changed { OnOk result (batch.new.changed ≡ batch.old.changed ++ flat_map (made_at changed_at (A.tree a.now) (B.tree b.now)) ids.now) }
    ensures removed { OnOk result (batch.new.removed ≡ batch.old.removed ++ flat_map (made_at removed_at (A.tree a.now) (B.tree b.now)) ids.now) }
    ensures focus { OnOk result (batch.new.focus ≡ batch.old.focus) }
{
    for id in ids {
        push_at(alloc, a.find(*id), b.find(*id), *id, batch)?;
    }
    Ok(())
}

/// An object that is new, differs or is gone.
fn push_at(
    alloc: Global,
    old: Option<&Record>,
    new: Option<&Record>,
    id: ObjId,
    batch: &mut Batch,
) -> Result<(), NoMemory>
    ensures added { OnOk result (batch.new.added ≡ batch.old.added ++ added_at (option_copied old.entry) (option_copied new.entry) id) }
    ensures changed { OnOk result (batch.new.changed ≡ batch.old.changed ++ changed_at (option_copied old.entry) (option_copied new.entry) id) }
    ensures removed { OnOk result (batch.new.removed ≡ batch.old.removed ++ removed_at (option_copied old.entry) (option_copied new.entry) id) }
    ensures focus { OnOk result (batch.new.focus ≡ batch.old.focus) }
{
    push_one(alloc, old, new, id, &mut batch.added, &mut batch.changed)?;
    push_gone(old, new, id, &mut batch.removed)?;
    Ok(())
}

/// An object that is new, or differs.
fn push_one(
    alloc: Global,
    old: Option<&Record>,
    new: Option<&Record>,
    id: ObjId,
    added: &mut Records,
    changed: &mut Changes,
) -> Result<(), NoMemory>
    ensures added { OnOk result (added.new ≡ added.old ++ added_at (option_copied old.entry) (option_copied new.entry) id) }
    ensures changed { OnOk result (changed.new ≡ changed.old ++ changed_at (option_copied old.entry) (option_copied new.entry) id) }
{
    let Some(new) = new else {
        return Ok(());
    };
    match old {
        None => added.push(new.copy(alloc)?),
        Some(old) => push_change(id, changed_props(alloc, old, new)?, changed),
    }
}

/// A change, where some properties differ.
fn push_change(id: ObjId, props: PropList, changed: &mut Changes) -> Result<(), NoMemory>
    ensures { OnOk result (changed.new ≡ changed.old ++ change_of id props) }
{
    if props.as_slice().is_empty() {
        return Ok(());
    }
    changed.push(Change { id, props })?;
    Ok(())
}

/// An object that is gone.
fn push_gone(
    old: Option<&Record>,
    new: Option<&Record>,
    id: ObjId,
    removed: &mut Ids,
) -> Result<(), NoMemory>
    ensures { OnOk result (removed.new ≡ removed.old ++ removed_at (option_copied old.entry) (option_copied new.entry) id) }
{
    if old.is_some() && new.is_none() {
        removed.push(id)?;
    }
    Ok(())
}

/// The focus, where it differs.
fn focus_change(old: Option<ObjId>, new: Option<ObjId>) -> Option<Option<ObjId>>
    ensures { result ≡ focus_change old new }
{
    if old == new { None } else { Some(new) }
}
