//! The texts by which nodes refer to nodes.
ghost use Rattle.std.specs.Prelude.{◌≡◌, ◌++◌, ◌≤◌, ◌+◌, ◌*◌, length, OnOk, codes, option_copied};
ghost use Rattle.ax_base.specs.Document.{attr, body};
ghost use Rattle.ax_base.specs.Trees.{IsTree};
ghost use Rattle.dom_ids.specs.References.{label_for, listed, carried};
ghost use Rattle.dirty_set.specs.Marking.{carried_near};

use crate::around::near;
use ax_base::{Body, NoMemory, ObjId, Steps, Text};
use ax_dom::Dom;
use std::alloc::Global;
use std::sync::ledger::Ledger;

/// Adds the texts that are carried at and above some nodes, and at, above and below some roots.
pub fn add_carried_near<L: Ledger>(
    alloc: Global,
    dom: &Dom,
    nodes: &[ObjId],
    roots: &[ObjId],
    texts: &mut Vec<Text>,
    steps: &mut Steps<L>,
) -> Result<(), NoMemory>
    requires tree { IsTree dom.now }
    ensures { OnOk result (texts.new.items ≡ texts.old.items ++ carried_near nodes.now roots.now dom.now) }
{
    let set = near(alloc, dom, nodes, roots, steps)?;
    let ids = set.to_ids(alloc)?;
    for id in ids.as_slice() {
        add_carried_by(alloc, dom, *id, texts, steps)?;
    }
    Ok(())
}

/// Adds the texts that a node carries.
fn add_carried_by<L: Ledger>(
    alloc: Global,
    dom: &Dom,
    id: ObjId,
    texts: &mut Vec<Text>,
    steps: &mut Steps<L>,
) -> Result<(), NoMemory>
    ensures { OnOk result (texts.new.items ≡ texts.old.items ++ carried (body dom.now id)) }
{
    let Some(cell) = dom.cell(id, steps) else {
        return Ok(());
    };
    add_copy(alloc, own_id(&cell.body), texts)?;
    add_copy(alloc, labelled_id(&cell.body), texts)?;
    Ok(())
}

/// Adds a copy of a text, where there is one.
fn add_copy(alloc: Global, text: Option<&Text>, texts: &mut Vec<Text>) -> Result<(), NoMemory>
    ensures { OnOk result (texts.new.items ≡ texts.old.items ++ listed (option_copied text.entry)) }
{
    match text {
        Some(found) => {
            texts.push(found.copy(alloc)?)?;
            Ok(())
        }
        None => Ok(()),
    }
}

/// The `id` of an element.
pub fn own_id(node: &Body) -> Option<&Text>
    ensures { option_copied result ≡ attr (codes "id") node.now }
{
    match node {
        Body::Element { attrs, .. } => attrs.get("id"),
        Body::Words { .. } => None,
    }
}

/// The `for` of a `label`.
fn labelled_id(node: &Body) -> Option<&Text>
    ensures { option_copied result ≡ label_for node.now }
{
    let Body::Element { tag, attrs, .. } = node else {
        return None;
    };
    if !tag.is("label") {
        return None;
    }
    attrs.get("for")
}
