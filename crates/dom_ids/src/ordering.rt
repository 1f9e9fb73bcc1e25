//! Some nodes in tree order.
ghost use Rattle.std.specs.Prelude.{◌≡◌, ◌++◌, ◌∷◌, [], ℕ, true, IfOk, OnOk, Contains, filter, if◌then◌else◌};
ghost use Rattle.ax_base.specs.Document.{has};
ghost use Rattle.ax_base.specs.Trees.{IsTree};
ghost use Rattle.ax_dom.specs.Among.{is_in, IsClosedUp};
ghost use Rattle.ax_dom.specs.Subtrees.{subtree};
ghost use Rattle.dom_ids.specs.Ordering.{in_order, first_in, AreWaysTo};

use crate::ways::NodeSet;
use ax_base::{Ids, NoMemory, ObjId, Steps};
use ax_dom::Dom;
use std::alloc::Global;
use std::sync::ledger::Ledger;

/// Puts some nodes into tree order. It looks at the document only where they are more than one.
pub(crate) fn put_in_order<L: Ledger>(
    alloc: Global,
    dom: &Dom,
    ids: &mut Ids,
    steps: &mut Steps<L>,
) -> Result<(), NoMemory>
    requires tree { IsTree dom.now }
    requires known { (n : ℕ) → Contains ids.old n → has dom.now n ≡ true }
    ensures { OnOk result (ids.new ≡ in_order dom.now ids.old) }
{
    if ids.as_slice().len() <= 1 {
        return Ok(());
    }
    *ids = in_order(alloc, dom, ids.as_slice(), steps)?;
    Ok(())
}

/// The first of some nodes in tree order. It looks at the document only where they are more than one.
pub(crate) fn first_in_order<L: Ledger>(
    alloc: Global,
    dom: &Dom,
    nodes: &[ObjId],
    steps: &mut Steps<L>,
) -> Result<Option<ObjId>, NoMemory>
    requires tree { IsTree dom.now }
    requires known { (n : ℕ) → Contains nodes.now n → has dom.now n ≡ true }
    ensures { IfOk result (λ first. first ≡ first_in (in_order dom.now nodes.now)) }
{
    if nodes.len() <= 1 {
        return Ok(first_of(nodes));
    }
    let ids = in_order(alloc, dom, nodes, steps)?;
    Ok(first_of(ids.as_slice()))
}

/// The first of some nodes.
fn first_of(nodes: &[ObjId]) -> Option<ObjId>
    ensures { result ≡ first_in nodes.now }
{
    nodes.first().copied()
}

/// The nodes of a document that are among some, in tree order. They are found on the ways from the root to them alone.
fn in_order<L: Ledger>(
    alloc: Global,
    dom: &Dom,
    nodes: &[ObjId],
    steps: &mut Steps<L>,
) -> Result<Ids, NoMemory>
    requires tree { IsTree dom.now }
    ensures { IfOk result (λ ids. ids ≡ in_order dom.now nodes.now) }
{
    let wanted = set_of(alloc, nodes)?;
    let ways = ways_to(alloc, dom, nodes, steps)?;
    let mut ids = Ids::new(alloc);
    gather(dom, &ways, &wanted, ObjId::ROOT, &mut ids, steps)?;
    Ok(ids)
}

/// Some nodes as a set.
fn set_of(alloc: Global, nodes: &[ObjId]) -> Result<NodeSet, NoMemory>
    ensures { IfOk result (λ set. (n : ℕ) → is_in set n ≡ is_in nodes.now n) }
{
    let mut set = NodeSet::new(alloc);
    for node in nodes {
        set.add(*node)?;
    }
    Ok(set)
}

/// Some nodes, and all that is above them.
fn ways_to<L: Ledger>(
    alloc: Global,
    dom: &Dom,
    nodes: &[ObjId],
    steps: &mut Steps<L>,
) -> Result<NodeSet, NoMemory>
    requires tree { IsTree dom.now }
    ensures { IfOk result (λ ways. AreWaysTo dom.now nodes.now ways) }
{
    let mut ways = NodeSet::new(alloc);
    for node in nodes {
        ways.climb(dom, *node, steps)?;
    }
    Ok(ways)
}

/// Adds those that are wanted of a node and of all that is below it, in tree order. It goes into nodes on a way alone.
fn gather<L: Ledger>(
    dom: &Dom,
    ways: &NodeSet,
    wanted: &NodeSet,
    id: ObjId,
    out: &mut Ids,
    steps: &mut Steps<L>,
) -> Result<(), NoMemory>
    requires tree { IsTree dom.now }
    requires ways { AreWaysTo dom.now wanted.now ways.now }
    ensures { OnOk result (out.new ≡ out.old ++ filter (is_in wanted.now) (subtree dom.now id)) }
{
    if !ways.has(id) {
        return Ok(());
    }
    push_wanted(wanted, id, out)?;
    for child in dom.children(id, steps) {
        gather(dom, ways, wanted, *child, out, steps)?;
    }
    Ok(())
}

/// Adds a node, if it is wanted.
fn push_wanted(wanted: &NodeSet, id: ObjId, out: &mut Ids) -> Result<(), NoMemory>
    ensures { OnOk result (out.new ≡ out.old ++ (if is_in wanted.now id then id ∷ [] else [])) }
{
    if wanted.has(id) {
        out.push(id)?;
    }
    Ok(())
}
