//! Sets of nodes that have with each node its ancestors.
ghost use Rattle.std.specs.Prelude.{◌≡◌, ◌≤◌, ◌+◌, true, length, OnOk, OnErr, IfOk, []};
ghost use Rattle.std.specs.Ordering.{nat_cmp};
ghost use Rattle.std.specs.BTreeSet.{insert_key};
ghost use Rattle.std.specs.List.Sorted.{IsStrictlyIncreasing};
ghost use Rattle.ax_base.specs.Document.{has, lineage};
ghost use Rattle.ax_base.specs.Trees.{IsTree};
ghost use Rattle.dirty_set.specs.NodeSets.{mem, IsUpClosed, KeepsAll, OnlyAdds};

use ax_base::{Ids, NoMemory, ObjId, Steps};
use ax_dom::Dom;
use std::alloc::Global;
use std::collections::BTreeSet;
use std::marker::Model;
use std::sync::ledger::Ledger;

/// Some nodes. A clause sees them as the rising list of their numbers.
#[derive(Drop)]
pub struct NodeIds {
    set: BTreeSet<u32>,
}

impl Model for NodeIds {
    ghost use Rattle.std.specs.Prelude.{List, ℕ};

    ghost Value = { List ℕ };

    ghost view = { λ a. a.set.keys };
}

impl NodeIds {
    /// No nodes.
    pub fn new(alloc: Global) -> NodeIds
        ensures { result ≡ [] }
    {
        NodeIds {
            set: BTreeSet::new(alloc),
        }
    }

    /// Whether a node is among them.
    pub fn has(&self, id: ObjId) -> bool
        ensures { result ≡ mem self.now id }
    {
        self.set.contains(&id.0)
    }

    /// Adds a node. At an error nothing changes.
    pub fn add(&mut self, id: ObjId) -> Result<(), NoMemory>
        ensures ok { OnOk result (self.new ≡ insert_key nat_cmp self.old id) }
        ensures err { OnErr result (self.new ≡ self.old) }
    {
        self.set.insert(id.0)?;
        Ok(())
    }

    /// Adds a node and its ancestors, up to the first that is among them. One read for each node that is added.
    pub fn climb<L: Ledger>(
        &mut self,
        dom: &Dom,
        id: ObjId,
        steps: &mut Steps<L>,
    ) -> Result<(), NoMemory>
        requires tree { IsTree dom.now }
        requires known { has dom.now id ≡ true }
        requires closed { IsUpClosed dom.now self.old }
        requires rises { IsStrictlyIncreasing self.old }
        ensures closed { OnOk result (IsUpClosed dom.now self.new) }
        ensures added { OnOk result (mem self.new id ≡ true) }
        ensures keeps { KeepsAll self.old self.new }
        ensures only { OnlyAdds self.old self.new (lineage dom.now id) }
        ensures rises { IsStrictlyIncreasing self.new }
        ensures counted { steps.new + length self.old ≤ steps.old + length self.new }
    {
        let mut at = id;
        'up: while !self.has(at) {
            self.add(at)?;
            let Some(parent) = dom.parent(at, steps) else {
                return Ok(());
            };
            at = parent;
        }
        Ok(())
    }

    /// The nodes, by rising id.
    pub fn to_ids(&self, alloc: Global) -> Result<Ids, NoMemory>
        ensures { IfOk result (λ ids. ids ≡ self.now) }
    {
        let mut ids = Ids::new(alloc);
        for number in &self.set {
            ids.push(ObjId(*number))?;
        }
        Ok(ids)
    }
}
