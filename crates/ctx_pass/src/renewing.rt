//! A renewal of contexts, from above.
ghost use Rattle.std.specs.Prelude.{◌≡◌, ◌≤◌, ◌+◌, ℕ, true, false, length, OnOk};
ghost use Rattle.ax_base.specs.Document.{has, IsChild};
ghost use Rattle.ax_base.specs.Trees.{IsTree};
ghost use Rattle.ax_dom.specs.Among.{is_in};
ghost use Rattle.node_order.specs.Orders.{IsFromAbove};
ghost use Rattle.ctx_pass.specs.Contexts.{standing_of, IsContextKept, AreContextsOf};

use crate::kept::KeptContexts;
use crate::standing::{Standing, stand};
use ax_base::{NoMemory, ObjId, Steps};
use ax_dom::Dom;
use std::sync::ledger::Ledger;

/// Renews the contexts of some nodes, each after that of its parent.
pub(crate) fn renew_each<L: Ledger>(
    dom: &Dom,
    nodes: &[ObjId],
    contexts: &mut KeptContexts,
    steps: &mut Steps<L>,
) -> Result<(), NoMemory>
    requires tree { IsTree dom.now }
    requires order { IsFromAbove dom.now nodes.now }
    requires others { (n : ℕ) → has dom.now n ≡ true → is_in nodes.now n ≡ false → IsContextKept dom.now contexts.old n }
    ensures value { OnOk result (AreContextsOf dom.now contexts.new) }
    ensures counted { steps.new ≤ steps.old + length nodes.now }
{
    for id in nodes {
        renew_one(dom, *id, contexts, steps)?;
    }
    Ok(())
}

/// Renews the context of a node, where that of its parent is right.
fn renew_one<L: Ledger>(
    dom: &Dom,
    id: ObjId,
    contexts: &mut KeptContexts,
    steps: &mut Steps<L>,
) -> Result<(), NoMemory>
    requires tree { IsTree dom.now }
    requires known { has dom.now id ≡ true }
    requires parent { (p : ℕ) → has dom.now p ≡ true → IsChild dom.now p id → IsContextKept dom.now contexts.old p }
    ensures here { OnOk result (IsContextKept dom.now contexts.new id) }
    ensures keeps { OnOk result ((n : ℕ) → IsContextKept dom.now contexts.old n → IsContextKept dom.now contexts.new n) }
    ensures counted { steps.new ≡ steps.old + 1 }
{
    let standing = look(dom, id, contexts, steps);
    contexts.keep(id, standing)
}

/// How a node stands, where what is kept of its parent is right.
fn look<L: Ledger>(dom: &Dom, id: ObjId, contexts: &KeptContexts, steps: &mut Steps<L>) -> Standing
    requires tree { IsTree dom.now }
    requires known { has dom.now id ≡ true }
    requires parent { (p : ℕ) → has dom.now p ≡ true → IsChild dom.now p id → IsContextKept dom.now contexts.now p }
    ensures value { result ≡ standing_of dom.now id }
    ensures counted { steps.new ≡ steps.old + 1 }
{
    let Some(cell) = dom.cell(id, steps) else {
        unreachable!()
    };
    stand(id, &cell.body, contexts.above(cell.parent))
}
