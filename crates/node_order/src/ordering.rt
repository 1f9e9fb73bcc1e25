//! Nodes in an order from above.
ghost use Rattle.std.specs.Prelude.{◌≡◌, ◌≤◌, ◌+◌, ◌++◌, ◌∷◌, [], ℕ, true, false, length, IfOk, OnOk, if◌then◌else◌};
ghost use Rattle.ax_base.specs.Document.{has, IsChild};
ghost use Rattle.ax_base.specs.Trees.{IsTree};
ghost use Rattle.ax_dom.specs.Among.{is_in, IsClosedUp};
ghost use Rattle.node_order.specs.Orders.{IsFromAbove};
ghost use Rattle.node_order.specs.Parents.{ArePlaced};

use crate::parents::Parents;
use ax_base::{Ids, NoMemory, ObjId, Steps};
use ax_dom::Dom;
use std::alloc::Global;
use std::collections::BTreeSet;
use std::marker::Model;
use std::sync::ledger::Ledger;

/// Nodes that are placed one behind another. A clause sees them as a list.
#[derive(Drop)]
struct Placed {
    ids: Ids,
    marks: BTreeSet<u32>,
}

impl Model for Placed {
    ghost use Rattle.std.specs.Prelude.{List, ℕ};
    ghost use Rattle.node_order.specs.Parents.{TellPlaced};

    ghost Value = { List ℕ };

    ghost view = { λ a. a.ids };

    ghost invariant = { λ a. TellPlaced a.marks.keys a.ids };
}

impl Placed {
    /// No nodes.
    fn new(alloc: Global) -> Placed
        ensures { result ≡ [] }
    {
        Placed {
            ids: Ids::new(alloc),
            marks: BTreeSet::new(alloc),
        }
    }

    /// Whether a node is placed.
    fn has(&self, id: ObjId) -> bool
        ensures { result ≡ is_in self.now id }
    {
        let _ids = &self.ids;
        self.marks.contains(&id.0)
    }

    /// These nodes with one more behind them, if it is not among them. At an error they are given up.
    fn with(self, id: ObjId) -> Result<Placed, NoMemory>
        ensures { IfOk result (λ p. p ≡ (if is_in self id then self else self ++ id ∷ [])) }
    {
        if self.has(id) {
            return Ok(self);
        }
        let Placed { mut ids, mut marks } = self;
        ids.push(id)?;
        marks.insert(id.0)?;
        Ok(Placed { ids, marks })
    }

    /// These nodes with one more behind its ancestors, which are placed with it. At an error they are given up.
    #[cycle(placing)]
    fn with_ancestors(self, parents: &Parents, id: ObjId) -> Result<Placed, NoMemory>
        requires among { is_in parents.now.nodes id ≡ true }
        requires placed { ArePlaced parents.now.document parents.now.nodes self }
        ensures placed { IfOk result (λ p. ArePlaced parents.now.document parents.now.nodes p) }
        ensures added { IfOk result (λ p. is_in p id ≡ true) }
        ensures keeps { IfOk result (λ p. (n : ℕ) → is_in self n ≡ true → is_in p n ≡ true) }
    {
        if self.has(id) {
            return Ok(self);
        }
        match parents.parent(id) {
            Some(parent) => self.with_ancestors(parents, parent)?.with(id),
            None => self.with(id),
        }
    }
}

/// Some nodes of a document, which have with each its parent, in an order from above: each stands behind its parent. It
/// reads each node once.
pub fn from_above<L: Ledger>(
    alloc: Global,
    dom: &Dom,
    nodes: &[ObjId],
    steps: &mut Steps<L>,
) -> Result<Ids, NoMemory>
    requires tree { IsTree dom.now }
    requires known { (n : ℕ) → is_in nodes.now n ≡ true → has dom.now n ≡ true }
    requires closed { IsClosedUp dom.now nodes.now }
    ensures order { IfOk result (λ ids. IsFromAbove dom.now ids) }
    ensures same { IfOk result (λ ids. (n : ℕ) → is_in ids n ≡ is_in nodes.now n) }
    ensures few { IfOk result (λ ids. length ids ≤ length nodes.now) }
    ensures counted { steps.new ≤ steps.old + length nodes.now }
{
    let parents = Parents::of(alloc, dom, nodes, steps)?;
    let placed = place_all(alloc, &parents, nodes)?;
    Ok(placed.ids)
}

/// Some nodes, each placed behind its ancestors.
fn place_all(alloc: Global, parents: &Parents, nodes: &[ObjId]) -> Result<Placed, NoMemory>
    requires among { nodes.now ≡ parents.now.nodes }
    ensures placed { IfOk result (λ p. ArePlaced parents.now.document parents.now.nodes p) }
    ensures all { IfOk result (λ p. (n : ℕ) → is_in nodes.now n ≡ true → is_in p n ≡ true) }
{
    let mut placed = Placed::new(alloc);
    for id in nodes {
        placed = placed.with_ancestors(parents, *id)?;
    }
    Ok(placed)
}
