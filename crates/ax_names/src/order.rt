//! The nodes in tree order.
ghost use Rattle.std.specs.Prelude.{◌≡◌, ◌++◌, IfOk, OnOk};
ghost use Rattle.ax_base.specs.Document.{order};
ghost use Rattle.ax_dom.specs.Subtrees.{subtree};

use ax_base::{Ids, NoMemory, ObjId, Steps};
use ax_dom::Dom;
use std::alloc::Global;
use std::sync::ledger::Ledger;

/// All nodes, in tree order.
pub fn tree_order<L: Ledger>(
    alloc: Global,
    dom: &Dom,
    steps: &mut Steps<L>,
) -> Result<Ids, NoMemory>
    ensures { IfOk result (λ ids. ids ≡ order dom.now) }
{
    let mut nodes = Ids::new(alloc);
    put_node(dom, ObjId::ROOT, &mut nodes, steps)?;
    Ok(nodes)
}

/// Adds a node, and then what is below it.
#[cycle(order)]
fn put_node<L: Ledger>(
    dom: &Dom,
    id: ObjId,
    nodes: &mut Ids,
    steps: &mut Steps<L>,
) -> Result<(), NoMemory>
    ensures { OnOk result (nodes.new ≡ nodes.old ++ subtree dom.now id) }
{
    nodes.push(id)?;
    for child in dom.children(id, steps) {
        put_node(dom, *child, nodes, steps)?;
    }
    Ok(())
}
