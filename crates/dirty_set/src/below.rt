//! What is below marked nodes.
ghost use Rattle.std.specs.Prelude.{◌≡◌, ◌≤◌, ◌+◌, length, OnOk};
ghost use Rattle.std.specs.List.Sorted.{IsStrictlyIncreasing};
ghost use Rattle.ax_base.specs.Document.{has};
ghost use Rattle.ax_base.specs.Trees.{IsTree};
ghost use Rattle.ax_dom.specs.Subtrees.{subtree};
ghost use Rattle.dirty_set.specs.NodeSets.{mem, IsDownClosedBelow, HasAllOf, KeepsAll, OnlyAdds};

use crate::climb::NodeIds;
use ax_base::{NoMemory, ObjId, Steps};
use ax_dom::Dom;
use std::sync::ledger::Ledger;

/// Adds a node and all that is below it, and passes what was added before. One read for each node that is added.
#[cycle(walking)]
pub fn walk_below<L: Ledger>(
    dom: &Dom,
    walked: &mut NodeIds,
    id: ObjId,
    steps: &mut Steps<L>,
) -> Result<(), NoMemory>
    requires tree { IsTree dom.now }
    requires closed { IsDownClosedBelow dom.now walked.old id }
    requires rises { IsStrictlyIncreasing walked.old }
    ensures closed { OnOk result (IsDownClosedBelow dom.now walked.new id) }
    ensures within { OnOk result (HasAllOf walked.new (subtree dom.now id)) }
    ensures keeps { KeepsAll walked.old walked.new }
    ensures only { OnlyAdds walked.old walked.new (subtree dom.now id) }
    ensures rises { IsStrictlyIncreasing walked.new }
    ensures counted { steps.new + length walked.old ≤ steps.old + length walked.new }
{
    if walked.has(id) {
        return Ok(());
    }
    walked.add(id)?;
    for child in dom.children(id, steps) {
        walk_below(dom, walked, *child, steps)?;
    }
    Ok(())
}
