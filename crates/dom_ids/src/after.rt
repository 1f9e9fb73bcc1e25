//! The index after an edit.
ghost use Rattle.std.specs.Prelude.{◌≡◌, [], ◌∷◌, None, IfOk, if◌then◌else◌};
ghost use Rattle.ax_dom.specs.Changes.{edited};
ghost use Rattle.ax_dom.specs.Refusals.{edit_cause};
ghost use Rattle.dom_ids.specs.Hanging.{Follows, went, came, shifted};
ghost use Rattle.dom_ids.specs.Index.{IsIndexOf};
ghost use Rattle.dom_ids.specs.References.{is_tie};

use crate::below::nodes_below;
use crate::change::Change;
use crate::index::IdIndex;
use ax_base::{Ids, NoMemory, ObjId, Steps, Text};
use ax_dom::{Dom, Edit};
use std::alloc::Global;
use std::sync::ledger::Ledger;

impl IdIndex {
    /// The index after an edit that leads from one document to another: it was that of the first, and is that of the
    /// second. It looks at what the edit touches, and into the rest of a document only where a text that is touched has
    /// more than one element. At an error the index is given up.
    pub fn after<L: Ledger>(
        self,
        alloc: Global,
        old: &Dom,
        now: &Dom,
        e: &Edit,
        steps: &mut Steps<L>,
    ) -> Result<IdIndex, NoMemory>
        requires index { IsIndexOf old.now self }
        requires accepted { edit_cause old.now e.now ≡ None }
        requires leads { now.now ≡ edited old.now e.now }
        ensures { IfOk result (λ index. IsIndexOf now.now index) }
    {
        old.keeps_tree();
        now.keeps_tree();
        let gone = went(alloc, old, e, steps)?;
        let come = came(alloc, e)?;
        let moved = shifted(alloc, now, e, steps)?;
        self.renew(
            alloc,
            old,
            now,
            gone.as_slice(),
            come.as_slice(),
            moved.as_slice(),
            steps,
        )
    }

    /// The index of a document in which some nodes went, some came, and some were moved.
    fn renew<L: Ledger>(
        self,
        alloc: Global,
        old: &Dom,
        now: &Dom,
        gone: &[ObjId],
        come: &[ObjId],
        moved: &[ObjId],
        steps: &mut Steps<L>,
    ) -> Result<IdIndex, NoMemory>
        requires index { IsIndexOf old.now self }
        requires follows { Follows old.now now.now gone.now come.now moved.now }
        ensures { IfOk result (λ index. IsIndexOf now.now index) }
    {
        let mut index = self;
        index.change_nodes(alloc, Change::Goes, old, gone, steps)?;
        index.change_nodes(alloc, Change::Comes, now, come, steps)?;
        index.settle_nodes(alloc, now, old, gone, steps)?;
        index.settle_nodes(alloc, now, now, come, steps)?;
        index.settle_nodes(alloc, now, now, moved, steps)?;
        Ok(index)
    }
}

/// The nodes that an edit takes out of a document, or whose names or references it changes.
fn went<L: Ledger>(
    alloc: Global,
    old: &Dom,
    e: &Edit,
    steps: &mut Steps<L>,
) -> Result<Ids, NoMemory>
    ensures { IfOk result (λ ids. ids ≡ went old.now e.now) }
{
    match e {
        Edit::Remove(id) => nodes_below(alloc, old, *id, steps),
        Edit::Set { id, name, .. } => tied(alloc, *id, name),
        Edit::Unset { id, name } => tied(alloc, *id, name),
        _ => Ok(Ids::new(alloc)),
    }
}

/// The nodes that an edit puts in, or whose names or references it changes.
fn came(alloc: Global, e: &Edit) -> Result<Ids, NoMemory>
    ensures { IfOk result (λ ids. ids ≡ came e.now) }
{
    match e {
        Edit::InsertElement { id, .. } | Edit::InsertText { id, .. } => lone(alloc, *id),
        Edit::Set { id, name, .. } => tied(alloc, *id, name),
        Edit::Unset { id, name } => tied(alloc, *id, name),
        _ => Ok(Ids::new(alloc)),
    }
}

/// The nodes that an edit hangs elsewhere.
fn shifted<L: Ledger>(
    alloc: Global,
    now: &Dom,
    e: &Edit,
    steps: &mut Steps<L>,
) -> Result<Ids, NoMemory>
    ensures { IfOk result (λ ids. ids ≡ shifted now.now e.now) }
{
    match e {
        Edit::Move { id, .. } => nodes_below(alloc, now, *id, steps),
        _ => Ok(Ids::new(alloc)),
    }
}

/// A node of which an attribute changes, if elements are named by it, or name others.
fn tied(alloc: Global, id: ObjId, name: &Text) -> Result<Ids, NoMemory>
    ensures { IfOk result (λ ids. ids ≡ (if is_tie name.now then id ∷ [] else [])) }
{
    if is_tie(name) {
        lone(alloc, id)
    } else {
        Ok(Ids::new(alloc))
    }
}

/// Whether an attribute is one by which elements are named, or name others.
fn is_tie(name: &Text) -> bool
    ensures { result ≡ is_tie name.now }
{
    name.is("id") || name.is("for") || name.is("aria-labelledby") || name.is("aria-describedby")
}

/// One node.
fn lone(alloc: Global, id: ObjId) -> Result<Ids, NoMemory>
    ensures { IfOk result (λ ids. ids ≡ id ∷ []) }
{
    let mut ids = Ids::new(alloc);
    ids.push(id)?;
    Ok(ids)
}
