//! Sets of nodes that have with each node those above it.
ghost use Rattle.std.specs.Prelude.{◌≡◌, true, OnOk, OnErr, [], ℕ};
ghost use Rattle.std.specs.Ordering.{nat_cmp};
ghost use Rattle.std.specs.BTreeSet.{insert_key};
ghost use Rattle.ax_base.specs.Trees.{IsTree};
ghost use Rattle.ax_dom.specs.Among.{is_in, IsClosedUp};

use ax_base::{NoMemory, ObjId, Steps};
use ax_dom::Dom;
use std::alloc::Global;
use std::collections::BTreeSet;
use std::marker::Model;
use std::sync::ledger::Ledger;

/// Some nodes. A clause sees them as the rising list of their numbers.
#[derive(Drop)]
pub(crate) struct NodeSet {
    numbers: BTreeSet<u32>,
}

impl Model for NodeSet {
    ghost use Rattle.std.specs.Prelude.{List, ℕ};

    ghost Value = { List ℕ };

    ghost view = { λ a. a.numbers.keys };
}

impl NodeSet {
    /// No nodes.
    pub(crate) fn new(alloc: Global) -> NodeSet
        ensures { result ≡ [] }
    {
        NodeSet {
            numbers: BTreeSet::new(alloc),
        }
    }

    /// Whether a node is among them.
    pub(crate) fn has(&self, id: ObjId) -> bool
        ensures { result ≡ is_in self.now id }
    {
        self.numbers.contains(&id.0)
    }

    /// Adds a node. At an error nothing changes.
    pub(crate) fn add(&mut self, id: ObjId) -> Result<(), NoMemory>
        ensures ok { OnOk result (self.new ≡ insert_key nat_cmp self.old id) }
        ensures err { OnErr result (self.new ≡ self.old) }
    {
        self.numbers.insert(id.0)?;
        Ok(())
    }

    /// Adds a node and those above it, up to the first that is among them.
    pub(crate) fn climb<L: Ledger>(
        &mut self,
        dom: &Dom,
        id: ObjId,
        steps: &mut Steps<L>,
    ) -> Result<(), NoMemory>
        requires tree { IsTree dom.now }
        requires closed { IsClosedUp dom.now self.old }
        ensures closed { OnOk result (IsClosedUp dom.now self.new) }
        ensures added { OnOk result (is_in self.new id ≡ true) }
        ensures keeps { OnOk result ((n : ℕ) → is_in self.old n ≡ true → is_in self.new n ≡ true) }
    {
        let mut at = id;
        'up: while !self.has(at) {
            self.add(at)?;
            let Some(parent) = dom.parent(at, steps) else {
                return Ok(());
            };
            at = parent;
        }
        Ok(())
    }
}
