//! The nodes at, above and below marks.
ghost use Rattle.std.specs.Prelude.{◌≡◌, ◌≤◌, ◌+◌, ◌*◌, ◌⊎◌, ℕ, true, length, OnOk, IfOk, Contains, []};
ghost use Rattle.std.specs.List.Sorted.{IsStrictlyIncreasing};
ghost use Rattle.ax_base.specs.Document.{has, lineage};
ghost use Rattle.ax_base.specs.Trees.{IsTree};
ghost use Rattle.ax_dom.specs.Subtrees.{subtree};
ghost use Rattle.dirty_set.specs.NodeSets.{mem, IsUpClosed, IsDownClosed, KeepsAll};
ghost use Rattle.dirty_set.specs.Reach.{nodes_near};
ghost use Rattle.dirty_set.specs.Near.{ComesFrom, LiesBelow, HasKnownOf, HasBelowOf};

use crate::below::walk_below;
use crate::climb::NodeIds;
use ax_base::{Ids, NoMemory, ObjId, Steps};
use ax_dom::Dom;
use std::alloc::Global;
use std::sync::ledger::Ledger;

/// The nodes at which, or below which, is a marked node or what is below a marked root. It reads each of them at most twice.
pub fn near<L: Ledger>(
    alloc: Global,
    dom: &Dom,
    nodes: &[ObjId],
    roots: &[ObjId],
    steps: &mut Steps<L>,
) -> Result<NodeIds, NoMemory>
    requires tree { IsTree dom.now }
    ensures value { IfOk result (λ ks. ks ≡ nodes_near nodes.now roots.now dom.now) }
    ensures counted { steps.new ≤ steps.old + 2 * length (nodes_near nodes.now roots.now dom.now) }
{
    let mut walked = NodeIds::new(alloc);
    walk_all(dom, &mut walked, roots, steps)?;
    let below = walked.to_ids(alloc)?;
    let mut set = NodeIds::new(alloc);
    climb_all(dom, &mut set, nodes, steps)?;
    climb_all(dom, &mut set, below.as_slice(), steps)?;
    Ok(set)
}

/// Adds some nodes and all above them.
pub fn climb_all<L: Ledger>(
    dom: &Dom,
    set: &mut NodeIds,
    some: &[ObjId],
    steps: &mut Steps<L>,
) -> Result<(), NoMemory>
    requires tree { IsTree dom.now }
    requires closed { IsUpClosed dom.now set.old }
    requires rises { IsStrictlyIncreasing set.old }
    ensures closed { OnOk result (IsUpClosed dom.now set.new) }
    ensures all { OnOk result (HasKnownOf dom.now some.now set.new) }
    ensures keeps { KeepsAll set.old set.new }
    ensures only { (n : ℕ) → mem set.new n ≡ true → (mem set.old n ≡ true) ⊎ ComesFrom dom.now some.now n }
    ensures rises { IsStrictlyIncreasing set.new }
    ensures counted { steps.new + length set.old ≤ steps.old + length set.new }
{
    for id in some {
        climb_known(dom, set, *id, steps)?;
    }
    Ok(())
}

/// Adds a node, if it is there, and all above it.
pub fn climb_known<L: Ledger>(
    dom: &Dom,
    set: &mut NodeIds,
    id: ObjId,
    steps: &mut Steps<L>,
) -> Result<(), NoMemory>
    requires tree { IsTree dom.now }
    requires closed { IsUpClosed dom.now set.old }
    requires rises { IsStrictlyIncreasing set.old }
    ensures closed { OnOk result (IsUpClosed dom.now set.new) }
    ensures added { OnOk result (has dom.now id ≡ true → mem set.new id ≡ true) }
    ensures keeps { KeepsAll set.old set.new }
    ensures only { (n : ℕ) → mem set.new n ≡ true → (mem set.old n ≡ true) ⊎ ((has dom.now id ≡ true) × Contains (lineage dom.now id) n) }
    ensures rises { IsStrictlyIncreasing set.new }
    ensures counted { steps.new + length set.old ≤ steps.old + length set.new }
{
    if dom.has(id) {
        return set.climb(dom, id, steps);
    }
    Ok(())
}

/// Adds all that is below some nodes, and themselves.
fn walk_all<L: Ledger>(
    dom: &Dom,
    walked: &mut NodeIds,
    roots: &[ObjId],
    steps: &mut Steps<L>,
) -> Result<(), NoMemory>
    requires tree { IsTree dom.now }
    requires closed { IsDownClosed dom.now walked.old }
    requires rises { IsStrictlyIncreasing walked.old }
    ensures closed { OnOk result (IsDownClosed dom.now walked.new) }
    ensures all { OnOk result (HasBelowOf dom.now roots.now walked.new) }
    ensures keeps { KeepsAll walked.old walked.new }
    ensures only { (n : ℕ) → mem walked.new n ≡ true → (mem walked.old n ≡ true) ⊎ LiesBelow dom.now roots.now n }
    ensures rises { IsStrictlyIncreasing walked.new }
    ensures counted { steps.new + length walked.old ≤ steps.old + length walked.new }
{
    for root in roots {
        walk_known(dom, walked, *root, steps)?;
    }
    Ok(())
}

/// Adds a node, if it is there, and all that is below it.
fn walk_known<L: Ledger>(
    dom: &Dom,
    walked: &mut NodeIds,
    root: ObjId,
    steps: &mut Steps<L>,
) -> Result<(), NoMemory>
    requires tree { IsTree dom.now }
    requires closed { IsDownClosed dom.now walked.old }
    requires rises { IsStrictlyIncreasing walked.old }
    ensures closed { OnOk result (IsDownClosed dom.now walked.new) }
    ensures within { OnOk result (has dom.now root ≡ true → (n : ℕ) → Contains (subtree dom.now root) n → mem walked.new n ≡ true) }
    ensures keeps { KeepsAll walked.old walked.new }
    ensures only { (n : ℕ) → mem walked.new n ≡ true → (mem walked.old n ≡ true) ⊎ ((has dom.now root ≡ true) × Contains (subtree dom.now root) n) }
    ensures rises { IsStrictlyIncreasing walked.new }
    ensures counted { steps.new + length walked.old ≤ steps.old + length walked.new }
{
    if dom.has(root) {
        return walk_below(dom, walked, root, steps);
    }
    Ok(())
}
