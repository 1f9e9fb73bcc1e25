//! A renewal of kids, from below.
ghost use Rattle.std.specs.Prelude.{◌≡◌, ◌≤◌, ◌+◌, ◌*◌, ℕ, true, false, length, OnOk};
ghost use Rattle.ax_base.specs.Document.{has, IsChild};
ghost use Rattle.ax_roles.specs.Inclusion.{inclusion};
ghost use Rattle.ax_base.specs.Trees.{IsTree};
ghost use Rattle.ax_dom.specs.Among.{is_in};
ghost use Rattle.node_order.specs.Orders.{IsFromAbove};
ghost use Rattle.ctx_pass.specs.Contexts.{AreContextsOf};
ghost use Rattle.kids_pass.specs.Kids.{IsKidsKept, AreKidsOf};

use crate::kept::KeptKids;
use ax_base::{NoMemory, ObjId, Steps};
use ax_dom::Dom;
use ax_roles::{Inclusion, node_inclusion, node_role};
use ctx_pass::Contexts;
use std::alloc::Global;
use std::sync::ledger::Ledger;

/// Renews the kids of some nodes, each after those of its children.
pub(crate) fn renew_each<L: Ledger>(
    alloc: Global,
    dom: &Dom,
    contexts: &Contexts,
    nodes: &[ObjId],
    kids: &mut KeptKids,
    steps: &mut Steps<L>,
) -> Result<(), NoMemory>
    requires tree { IsTree dom.now }
    requires contexts { AreContextsOf dom.now contexts.now }
    requires order { IsFromAbove dom.now nodes.now }
    requires others { (n : ℕ) → has dom.now n ≡ true → is_in nodes.now n ≡ false → IsKidsKept dom.now kids.old n }
    ensures value { OnOk result (AreKidsOf dom.now kids.new) }
    ensures counted { steps.new ≤ steps.old + 2 * length nodes.now }
{
    for done in 0..nodes.len() {
        let id = nodes[nodes.len() - 1 - done];
        renew_one(alloc, dom, contexts, id, kids, steps)?;
    }
    Ok(())
}

/// Renews the kids of a node, where those of its children are right.
fn renew_one<L: Ledger>(
    alloc: Global,
    dom: &Dom,
    contexts: &Contexts,
    id: ObjId,
    kids: &mut KeptKids,
    steps: &mut Steps<L>,
) -> Result<(), NoMemory>
    requires tree { IsTree dom.now }
    requires contexts { AreContextsOf dom.now contexts.now }
    requires known { has dom.now id ≡ true }
    requires children { (c : ℕ) → IsChild dom.now id c → IsKidsKept dom.now kids.old c }
    ensures here { OnOk result (IsKidsKept dom.now kids.new id) }
    ensures keeps { OnOk result ((n : ℕ) → IsKidsKept dom.now kids.old n → IsKidsKept dom.now kids.new n) }
    ensures counted { steps.new ≡ steps.old + 2 }
{
    let inclusion = inclusion_of(dom, contexts, id, steps);
    let children = dom.children(id, steps);
    kids.renew(alloc, id, inclusion, children)
}

/// How a node takes part in the tree.
fn inclusion_of<L: Ledger>(
    dom: &Dom,
    contexts: &Contexts,
    id: ObjId,
    steps: &mut Steps<L>,
) -> Inclusion
    requires contexts { AreContextsOf dom.now contexts.now }
    requires known { has dom.now id ≡ true }
    ensures value { result ≡ inclusion dom.now id }
    ensures counted { steps.new ≡ steps.old + 1 }
{
    let Some(cell) = dom.cell(id, steps) else {
        return Inclusion::Excluded;
    };
    let role = node_role(id, &cell.body);
    node_inclusion(id, role, &cell.body, contexts.is_out(id))
}
