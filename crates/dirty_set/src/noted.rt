//! The marks of an edit.
ghost use Rattle.std.specs.Prelude.{◌≡◌, ◌≢◌, ◌++◌, ◌&&◌, ℕ, true, not, None, IfOk, OnOk};
ghost use Rattle.ax_base.specs.Document.{has, root};
ghost use Rattle.ax_base.specs.Trees.{IsTree};
ghost use Rattle.ax_dom.specs.Changes.{edited};
ghost use Rattle.ax_dom.specs.Refusals.{edit_cause};
ghost use Rattle.ax_dom.specs.Used.{is_used};
ghost use Rattle.dom_ids.specs.References.{listed};
ghost use Rattle.dirty_set.specs.Marking.{key_of, into_of, put_by, taken_by, unhung_by, left, turned, own_at, own, same_own, marked_nodes, marked_roots, marked_texts};

use crate::carried::add_carried_near;
use crate::turned::has_turned;
use ax_base::{Body, Ids, NoMemory, ObjId, Steps, Text};
use ax_dom::{Dom, Edit};
use std::alloc::Global;
use std::sync::ledger::Ledger;

/// The nodes that an edit marks: those that it names, the parent that loses a child, and those with the focus.
pub fn marked_nodes<L: Ledger>(
    alloc: Global,
    old: &Dom,
    now: &Dom,
    e: &Edit,
    steps: &mut Steps<L>,
) -> Result<Ids, NoMemory>
    ensures { IfOk result (λ ids. ids ≡ marked_nodes old.now now.now e.now) }
{
    let mut nodes = Ids::new(alloc);
    add_some(&mut nodes, key_of(e))?;
    add_some(&mut nodes, into_of(e))?;
    let left = left_by(old, e, steps);
    add_some(&mut nodes, left)?;
    add_some(&mut nodes, old.focus())?;
    add_some(&mut nodes, now.focus())?;
    Ok(nodes)
}

/// The roots that an edit marks: the node that it puts in a place, and the one that hides, leaves out or sets otherwise
/// than before.
pub fn marked_roots<L: Ledger>(
    alloc: Global,
    old: &Dom,
    now: &Dom,
    e: &Edit,
    steps: &mut Steps<L>,
) -> Result<Ids, NoMemory>
    requires was_tree { IsTree old.now }
    requires is_tree { IsTree now.now }
    requires inserted { (n : ℕ) → has old.now n ≡ true → n ≢ root → is_used old.now n ≡ true }
    requires free { edit_cause old.now e.now ≡ None }
    requires leads { now.now ≡ edited old.now e.now }
    ensures { IfOk result (λ ids. ids ≡ marked_roots old.now now.now e.now) }
{
    let mut roots = Ids::new(alloc);
    add_some(&mut roots, put_by(e))?;
    let turned = turned_by(old, now, e, steps);
    add_some(&mut roots, turned)?;
    Ok(roots)
}

/// The texts that an edit marks: those that are carried, before it or after it, around its nodes and its roots and
/// what it takes out.
pub fn marked_texts<L: Ledger>(
    alloc: Global,
    old: &Dom,
    now: &Dom,
    e: &Edit,
    nodes: &Ids,
    roots: &Ids,
    steps: &mut Steps<L>,
) -> Result<Vec<Text>, NoMemory>
    requires was_tree { IsTree old.now }
    requires is_tree { IsTree now.now }
    requires nodes { nodes.now ≡ marked_nodes old.now now.now e.now }
    requires roots { roots.now ≡ marked_roots old.now now.now e.now }
    ensures { IfOk result (λ texts. texts.items ≡ marked_texts old.now now.now e.now) }
{
    let mut around = roots.copy(alloc)?;
    add_some(&mut around, taken_by(e))?;
    let mut texts = Vec::new(alloc);
    add_carried_near(
        alloc,
        old,
        nodes.as_slice(),
        around.as_slice(),
        &mut texts,
        steps,
    )?;
    add_carried_near(
        alloc,
        now,
        nodes.as_slice(),
        around.as_slice(),
        &mut texts,
        steps,
    )?;
    Ok(texts)
}

/// The parent that loses a child by an edit.
fn left_by<L: Ledger>(old: &Dom, e: &Edit, steps: &mut Steps<L>) -> Option<ObjId>
    ensures { listed result ≡ left old.now e.now }
{
    match unhung_by(e) {
        Some(id) => old.parent(id, steps),
        None => None,
    }
}

/// The node that an edit makes hide, leave out or set otherwise than before.
fn turned_by<L: Ledger>(old: &Dom, now: &Dom, e: &Edit, steps: &mut Steps<L>) -> Option<ObjId>
    requires was_tree { IsTree old.now }
    requires is_tree { IsTree now.now }
    requires inserted { (n : ℕ) → has old.now n ≡ true → n ≢ root → is_used old.now n ≡ true }
    requires free { edit_cause old.now e.now ≡ None }
    requires leads { now.now ≡ edited old.now e.now }
    ensures { listed result ≡ turned old.now now.now }
{
    let Some(id) = key_of(e) else {
        return None;
    };
    if is_turned(old, now, id, steps) {
        return Some(id);
    }
    None
}

/// Whether both documents have a node and it hides, leaves out or sets otherwise in the second than in the first.
fn is_turned<L: Ledger>(old: &Dom, now: &Dom, id: ObjId, steps: &mut Steps<L>) -> bool
    ensures { result ≡ (has old.now id && (has now.now id && not (same_own (own old.now id) (own now.now id)))) }
{
    let Some(cell) = old.cell(id, steps) else {
        return false;
    };
    turns_from(id, &cell.body, now, steps)
}

/// Whether a document has a node and it hides, leaves out or sets otherwise than with an earlier body.
fn turns_from<L: Ledger>(id: ObjId, before: &Body, now: &Dom, steps: &mut Steps<L>) -> bool
    ensures { result ≡ (has now.now id && not (same_own (own_at (record { id = id; body = before.now })) (own now.now id))) }
{
    let Some(cell) = now.cell(id, steps) else {
        return false;
    };
    has_turned(id, before, &cell.body)
}

/// Adds an id, where there is one.
fn add_some(ids: &mut Ids, id: Option<ObjId>) -> Result<(), NoMemory>
    ensures { OnOk result (ids.new ≡ ids.old ++ listed id) }
{
    match id {
        Some(id) => {
            ids.push(id)?;
            Ok(())
        }
        None => Ok(()),
    }
}

/// The node that an edit names by its first key.
fn key_of(e: &Edit) -> Option<ObjId>
    ensures { result ≡ key_of e.now }
{
    match e {
        Edit::InsertElement { id, .. }
        | Edit::InsertText { id, .. }
        | Edit::Remove(id)
        | Edit::Move { id, .. }
        | Edit::Chars { id, .. }
        | Edit::Set { id, .. }
        | Edit::Unset { id, .. }
        | Edit::SetRuns { id, .. }
        | Edit::Frame { id, .. } => Some(*id),
        Edit::Focus(id) => *id,
    }
}

/// The node into which an edit puts another.
fn into_of(e: &Edit) -> Option<ObjId>
    ensures { result ≡ into_of e.now }
{
    match e {
        Edit::InsertElement { into, .. }
        | Edit::InsertText { into, .. }
        | Edit::Move { into, .. } => Some(*into),
        _ => None,
    }
}

/// The node that an edit puts in a place.
fn put_by(e: &Edit) -> Option<ObjId>
    ensures { result ≡ put_by e.now }
{
    match e {
        Edit::InsertElement { id, .. } | Edit::InsertText { id, .. } | Edit::Move { id, .. } => {
            Some(*id)
        }
        _ => None,
    }
}

/// The node that an edit takes out.
fn taken_by(e: &Edit) -> Option<ObjId>
    ensures { result ≡ taken_by e.now }
{
    match e {
        Edit::Remove(id) => Some(*id),
        _ => None,
    }
}

/// The node that an edit takes from its parent.
fn unhung_by(e: &Edit) -> Option<ObjId>
    ensures { result ≡ unhung_by e.now }
{
    match e {
        Edit::Remove(id) | Edit::Move { id, .. } => Some(*id),
        _ => None,
    }
}
