//! Climbs from the nodes that are tied to marks.
ghost use Rattle.std.specs.Prelude.{◌≡◌, ◌≤◌, ◌+◌, ◌*◌, ℕ, length, IfOk, OnOk};
ghost use Rattle.std.specs.List.Sorted.{IsStrictlyIncreasing};
ghost use Rattle.ax_base.specs.Trees.{IsTree};
ghost use Rattle.dom_ids.specs.Index.{IsIndexOf};
ghost use Rattle.dirty_set.specs.NodeSets.{IsUpClosed, KeepsAll};
ghost use Rattle.dirty_set.specs.Reach.{marks_of, reach, weight};
ghost use Rattle.dirty_set.specs.Reaching.{HasAllThat, OnlyFrom, IsTiedTo, IsTiedToSome, IsLabelOf, IsLabelOfSome, IsFocused};

use crate::around::{climb_all, climb_known, near};
use crate::carried::own_id;
use crate::climb::NodeIds;
use ax_base::{Ids, NoMemory, ObjId, Steps, Text};
use ax_dom::Dom;
use dom_ids::IdIndex;
use std::alloc::Global;
use std::sync::ledger::Ledger;

/// The nodes that marks reach in a document, by rising id: what is near them, the focus, what is tied to their texts,
/// and the labels of all these.
pub fn reached<L: Ledger>(
    alloc: Global,
    dom: &Dom,
    ids: &IdIndex,
    nodes: &[ObjId],
    roots: &[ObjId],
    texts: &[Text],
    steps: &mut Steps<L>,
) -> Result<Ids, NoMemory>
    requires tree { IsTree dom.now }
    requires index { IsIndexOf dom.now ids.now }
    ensures value { IfOk result (λ found. found ≡ reach dom.now (marks_of nodes.now roots.now texts.now)) }
    ensures counted { steps.new ≤ steps.old + 3 * weight dom.now (marks_of nodes.now roots.now texts.now) }
{
    let mut set = near(alloc, dom, nodes, roots, steps)?;
    climb_focus(dom, &mut set, steps)?;
    climb_tied(dom, ids, &mut set, texts, steps)?;
    let members = set.to_ids(alloc)?;
    climb_labels(dom, ids, &mut set, members.as_slice(), steps)?;
    let found = set.to_ids(alloc)?;
    Ok(found)
}

/// Adds the focused node, and all above it.
fn climb_focus<L: Ledger>(
    dom: &Dom,
    set: &mut NodeIds,
    steps: &mut Steps<L>,
) -> Result<(), NoMemory>
    requires tree { IsTree dom.now }
    requires closed { IsUpClosed dom.now set.old }
    requires rises { IsStrictlyIncreasing set.old }
    ensures closed { OnOk result (IsUpClosed dom.now set.new) }
    ensures all { OnOk result (HasAllThat dom.now (IsFocused dom.now) set.new) }
    ensures keeps { KeepsAll set.old set.new }
    ensures only { OnlyFrom dom.now (IsFocused dom.now) set.old set.new }
    ensures rises { IsStrictlyIncreasing set.new }
    ensures counted { steps.new + length set.old ≤ steps.old + length set.new }
{
    match dom.focus() {
        Some(id) => climb_known(dom, set, id, steps),
        None => Ok(()),
    }
}

/// Adds the nodes that are tied to one of some texts, and all above them.
fn climb_tied<L: Ledger>(
    dom: &Dom,
    ids: &IdIndex,
    set: &mut NodeIds,
    texts: &[Text],
    steps: &mut Steps<L>,
) -> Result<(), NoMemory>
    requires tree { IsTree dom.now }
    requires index { IsIndexOf dom.now ids.now }
    requires closed { IsUpClosed dom.now set.old }
    requires rises { IsStrictlyIncreasing set.old }
    ensures closed { OnOk result (IsUpClosed dom.now set.new) }
    ensures all { OnOk result (HasAllThat dom.now (IsTiedToSome dom.now texts.now) set.new) }
    ensures keeps { KeepsAll set.old set.new }
    ensures only { OnlyFrom dom.now (IsTiedToSome dom.now texts.now) set.old set.new }
    ensures rises { IsStrictlyIncreasing set.new }
    ensures counted { steps.new + length set.old ≤ steps.old + length set.new }
{
    for text in texts {
        climb_text(dom, ids, set, text, steps)?;
    }
    Ok(())
}

/// Adds the nodes that are tied to a text, and all above them.
fn climb_text<L: Ledger>(
    dom: &Dom,
    ids: &IdIndex,
    set: &mut NodeIds,
    text: &Text,
    steps: &mut Steps<L>,
) -> Result<(), NoMemory>
    requires tree { IsTree dom.now }
    requires index { IsIndexOf dom.now ids.now }
    requires closed { IsUpClosed dom.now set.old }
    requires rises { IsStrictlyIncreasing set.old }
    ensures closed { OnOk result (IsUpClosed dom.now set.new) }
    ensures all { OnOk result (HasAllThat dom.now (IsTiedTo dom.now text.now) set.new) }
    ensures keeps { KeepsAll set.old set.new }
    ensures only { OnlyFrom dom.now (IsTiedTo dom.now text.now) set.old set.new }
    ensures rises { IsStrictlyIncreasing set.new }
    ensures counted { steps.new + length set.old ≤ steps.old + length set.new }
{
    let id = text.as_str();
    climb_all(dom, set, ids.carriers(id), steps)?;
    climb_all(dom, set, ids.namers(id), steps)?;
    climb_all(dom, set, ids.labels(id), steps)?;
    Ok(())
}

/// Adds the labels of some nodes, and all above them.
fn climb_labels<L: Ledger>(
    dom: &Dom,
    ids: &IdIndex,
    set: &mut NodeIds,
    members: &[ObjId],
    steps: &mut Steps<L>,
) -> Result<(), NoMemory>
    requires tree { IsTree dom.now }
    requires index { IsIndexOf dom.now ids.now }
    requires closed { IsUpClosed dom.now set.old }
    requires rises { IsStrictlyIncreasing set.old }
    ensures closed { OnOk result (IsUpClosed dom.now set.new) }
    ensures all { OnOk result (HasAllThat dom.now (IsLabelOfSome dom.now members.now) set.new) }
    ensures keeps { KeepsAll set.old set.new }
    ensures only { OnlyFrom dom.now (IsLabelOfSome dom.now members.now) set.old set.new }
    ensures rises { IsStrictlyIncreasing set.new }
    ensures counted { steps.new + length set.old ≤ steps.old + length set.new + length members.now }
{
    for member in members {
        climb_own_labels(dom, ids, set, *member, steps)?;
    }
    Ok(())
}

/// Adds the labels of a node, and all above them.
fn climb_own_labels<L: Ledger>(
    dom: &Dom,
    ids: &IdIndex,
    set: &mut NodeIds,
    member: ObjId,
    steps: &mut Steps<L>,
) -> Result<(), NoMemory>
    requires tree { IsTree dom.now }
    requires index { IsIndexOf dom.now ids.now }
    requires closed { IsUpClosed dom.now set.old }
    requires rises { IsStrictlyIncreasing set.old }
    ensures closed { OnOk result (IsUpClosed dom.now set.new) }
    ensures all { OnOk result (HasAllThat dom.now (IsLabelOf dom.now member) set.new) }
    ensures keeps { KeepsAll set.old set.new }
    ensures only { OnlyFrom dom.now (IsLabelOf dom.now member) set.old set.new }
    ensures rises { IsStrictlyIncreasing set.new }
    ensures counted { steps.new + length set.old ≤ steps.old + length set.new + 1 }
{
    let Some(cell) = dom.cell(member, steps) else {
        return Ok(());
    };
    let Some(id) = own_id(&cell.body) else {
        return Ok(());
    };
    climb_all(dom, set, ids.labels(id.as_str()), steps)?;
    Ok(())
}
