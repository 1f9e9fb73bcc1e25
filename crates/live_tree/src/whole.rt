//! All nodes of a document.
ghost use Rattle.std.specs.Prelude.{◌≡◌, ◌++◌, true, IfOk, OnOk, ℕ};
ghost use Rattle.ax_base.specs.Document.{has};
ghost use Rattle.ax_dom.specs.Among.{is_in};
ghost use Rattle.ax_dom.specs.Subtrees.{subtree};
ghost use Rattle.node_order.specs.Orders.{IsFromAbove};

use ax_base::{Ids, NoMemory, ObjId, Steps};
use ax_dom::Dom;
use node_order::from_above;
use std::alloc::Global;
use std::sync::ledger::Ledger;

/// All nodes of a document, in an order from above.
pub(crate) fn all_from_above<L: Ledger>(
    alloc: Global,
    dom: &Dom,
    steps: &mut Steps<L>,
) -> Result<Ids, NoMemory>
    ensures order { IfOk result (λ ids. IsFromAbove dom.now ids) }
    ensures all { IfOk result (λ ids. (n : ℕ) → has dom.now n ≡ true → is_in ids n ≡ true) }
{
    dom.keeps_tree();
    let mut all = Ids::new(alloc);
    push_below(dom, ObjId::ROOT, &mut all, steps)?;
    let down = from_above(alloc, dom, all.as_slice(), steps)?;
    Ok(down)
}

/// Adds a node and all that is below it to some ids, in tree order.
fn push_below<L: Ledger>(
    dom: &Dom,
    id: ObjId,
    nodes: &mut Ids,
    steps: &mut Steps<L>,
) -> Result<(), NoMemory>
    ensures { OnOk result (nodes.new ≡ nodes.old ++ subtree dom.now id) }
{
    nodes.push(id)?;
    for child in dom.children(id, steps) {
        push_below(dom, *child, nodes, steps)?;
    }
    Ok(())
}
