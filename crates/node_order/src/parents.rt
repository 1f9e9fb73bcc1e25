//! The parents of some nodes.
ghost use Rattle.std.specs.Prelude.{◌≡◌, ◌≤◌, ◌+◌, ℕ, true, false, length, IfOk, IfSome, OnOk, None, Some};
ghost use Rattle.std.specs.Ordering.{nat_cmp};
ghost use Rattle.std.specs.BTreeMap.{insert_entry};
ghost use Rattle.ax_base.specs.Document.{has, parent};
ghost use Rattle.ax_base.specs.Trees.{IsTree};
ghost use Rattle.ax_dom.specs.Among.{is_in, IsClosedUp};
ghost use Rattle.node_order.specs.Parents.{AreParentsOf, HangsOn, IsOneOf, parent_at};

use ax_base::{NoMemory, ObjId, Steps};
use ax_dom::Dom;
use std::alloc::Global;
use std::collections::BTreeMap;
use std::marker::Model;
use std::sync::ledger::Ledger;

/// Parents by node. A clause sees them as a list by rising node.
#[derive(Drop)]
struct ByNode {
    map: BTreeMap<u32, u32>,
}

impl Model for ByNode {
    ghost use Rattle.std.specs.Prelude.{List, ℕ};

    ghost Value = { List (ℕ × ℕ) };

    ghost view = { λ a. a.map.entries };
}

impl ByNode {
    /// The parent that is kept of a node.
    fn get(&self, id: ObjId) -> Option<ObjId>
        ensures { result ≡ parent_at self.now id }
    {
        match self.map.get(&id.0) {
            Some(parent) => Some(ObjId(*parent)),
            None => None,
        }
    }

    /// Keeps the parent of a node.
    fn put(&mut self, id: ObjId, parent: ObjId) -> Result<(), NoMemory>
        ensures { OnOk result (self.new ≡ insert_entry nat_cmp self.old id parent) }
    {
        self.map.insert(id.0, parent.0)?;
        Ok(())
    }
}

/// Some nodes of a document, which have with each its parent, and the parent of each.
#[derive(Drop)]
pub(crate) struct Parents<'a> {
    dom: &'a Dom,
    nodes: &'a [ObjId],
    found: ByNode,
}

impl<'a> Model for Parents<'a> {
    ghost use Rattle.node_order.specs.Parents.{SomeNodes, AreHung};

    ghost Value = { SomeNodes };

    ghost view = { λ a. record { document = a.dom.now; nodes = a.nodes.now } };

    ghost invariant = { λ a. AreHung a.dom.now a.nodes.now a.found };
}

impl<'a> Parents<'a> {
    /// The parents of some nodes. It reads each node once.
    pub(crate) fn of<L: Ledger>(
        alloc: Global,
        dom: &'a Dom,
        nodes: &'a [ObjId],
        steps: &mut Steps<L>,
    ) -> Result<Parents<'a>, NoMemory>
        requires tree { IsTree dom.now }
        requires known { (n : ℕ) → is_in nodes.now n ≡ true → has dom.now n ≡ true }
        requires closed { IsClosedUp dom.now nodes.now }
        ensures value { IfOk result (λ p. p ≡ record { document = dom.now; nodes = nodes.now }) }
        ensures counted { steps.new ≤ steps.old + length nodes.now }
    {
        let found = parents_of(alloc, dom, nodes, steps)?;
        Ok(Parents { dom, nodes, found })
    }

    /// The parent of one of the nodes.
    pub(crate) fn parent(&self, id: ObjId) -> Option<ObjId>
        requires among { is_in self.now.nodes id ≡ true }
        ensures value { result ≡ parent self.now.document id }
        ensures above { IfSome result (λ p. HangsOn self.now.document self.now.nodes id p) }
        ensures node { IsOneOf self.now.document id }
    {
        let _dom = &self.dom;
        let _nodes = &self.nodes;
        self.found.get(id)
    }
}

/// The parents of some nodes.
fn parents_of<L: Ledger>(
    alloc: Global,
    dom: &Dom,
    nodes: &[ObjId],
    steps: &mut Steps<L>,
) -> Result<ByNode, NoMemory>
    ensures value { IfOk result (λ found. AreParentsOf dom.now nodes.now found) }
    ensures counted { steps.new ≤ steps.old + length nodes.now }
{
    let mut found = ByNode {
        map: BTreeMap::new(alloc),
    };
    for id in nodes {
        if let Some(parent) = dom.parent(*id, steps) {
            found.put(*id, parent)?;
        }
    }
    Ok(found)
}
