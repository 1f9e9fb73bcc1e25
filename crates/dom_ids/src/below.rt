//! A node and what is below it.
ghost use Rattle.std.specs.Prelude.{◌≡◌, ◌++◌, IfOk, OnOk};
ghost use Rattle.ax_dom.specs.Subtrees.{subtree};

use ax_base::{Ids, NoMemory, ObjId, Steps};
use ax_dom::Dom;
use std::alloc::Global;
use std::sync::ledger::Ledger;

/// A node and all that is below it, in tree order.
pub(crate) fn nodes_below<L: Ledger>(
    alloc: Global,
    dom: &Dom,
    id: ObjId,
    steps: &mut Steps<L>,
) -> Result<Ids, NoMemory>
    ensures { IfOk result (λ ids. ids ≡ subtree dom.now id) }
{
    let mut nodes = Ids::new(alloc);
    push_below(dom, id, &mut nodes, steps)?;
    Ok(nodes)
}

/// Adds a node and all that is below it to some ids, in tree order.
fn push_below<L: Ledger>(
    dom: &Dom,
    id: ObjId,
    nodes: &mut Ids,
    steps: &mut Steps<L>,
) -> Result<(), NoMemory>
    ensures { OnOk result (nodes.new ≡ nodes.old ++ subtree dom.now id) }
{
    nodes.push(id)?;
    for child in dom.children(id, steps) {
        push_below(dom, *child, nodes, steps)?;
    }
    Ok(())
}
