//! The names and descriptions of nodes, and what they say as parts of names, as they are kept.
ghost use Rattle.std.specs.Prelude.{◌≡◌, ◌≤◌, ◌+◌, ◌*◌, ℕ, true, false, [], length, Contains, OnOk, IfOk, Some};
ghost use Rattle.ax_base.specs.AccessibleNames.{name_of, description_of};
ghost use Rattle.ax_base.specs.Document.{Document, has, IsChild};
ghost use Rattle.ax_base.specs.Trees.{IsTree};
ghost use Rattle.ax_dom.specs.Among.{is_in};
ghost use Rattle.ax_names.specs.Pieces.{joined};
ghost use Rattle.node_order.specs.Orders.{IsFromAbove};
ghost use Rattle.said_pass.specs.declared.names.NodeName.{NodeName};
ghost use Rattle.said_pass.specs.Saids.{name_at, children_part, IsNameKept, AreNamesOf};

use crate::naming::name_node;
use crate::sources::Sources;
use ax_base::{IdMap, NoMemory, ObjId, Steps, Text};
use ax_names::Piece;
use std::alloc::Global;
use std::marker::Model;
use std::sync::ledger::Ledger;

/// What a node is called.
#[derive(Drop)]
pub(crate) struct NodeName {
    /// What it says for its parent as a part of a name: its own references count, and those of what is below it.
    pub(crate) part: Piece,
    pub(crate) name: Text,
    pub(crate) description: Text,
}

/// What nodes are called, by their ids. That of nodes that are gone may be among it.
pub(crate) struct NodeNames {
    kept: IdMap<NodeName>,
    nothing: Text,
}

/// Written out, so that whoever drops one makes one call in its proof.
impl Drop for NodeNames {
    fn drop(self) {
        let NodeNames {
            kept: _kept,
            nothing: _nothing,
        } = self;
    }
}

impl Model for NodeNames {
    ghost use Rattle.std.specs.Prelude.{List, ℕ};
    ghost use Rattle.said_pass.specs.declared.names.NodeName.{NodeName};

    ghost Value = { List (ℕ × NodeName) };

    ghost view = { λ a. a.kept };
}

impl NodeNames {
    /// Nothing is kept yet. It takes no memory.
    pub(crate) fn new(alloc: Global) -> NodeNames
        ensures { result ≡ [] }
    {
        NodeNames {
            kept: IdMap::new(alloc),
            nothing: Text::new(alloc),
        }
    }

    /// Renews what some nodes are called, which stand behind their parents, from the last to the first. It reads each of them
    /// twice.
    pub(crate) fn renew<L: Ledger>(
        &mut self,
        alloc: Global,
        sources: &Sources<'_>,
        nodes: &[ObjId],
        steps: &mut Steps<L>,
    ) -> Result<(), NoMemory>
        requires tree { IsTree sources.now }
        requires order { IsFromAbove sources.now nodes.now }
        requires others { (n : ℕ) → has sources.now n ≡ true → is_in nodes.now n ≡ false → IsNameKept sources.now self.old n }
        ensures value { OnOk result (AreNamesOf sources.now self.new) }
        ensures counted { steps.new ≤ steps.old + 2 * length nodes.now }
    {
        for id in nodes.iter().rev() {
            self.renew_node(alloc, sources, *id, steps)?;
        }
        Ok(())
    }

    /// Renews what a node is called, where that of its children is kept. It reads the node twice.
    fn renew_node<L: Ledger>(
        &mut self,
        alloc: Global,
        sources: &Sources<'_>,
        id: ObjId,
        steps: &mut Steps<L>,
    ) -> Result<(), NoMemory>
        requires tree { IsTree sources.now }
        requires known { has sources.now id ≡ true }
        requires children { (c : ℕ) → IsChild sources.now id c → IsNameKept sources.now self.old c }
        ensures here { OnOk result (IsNameKept sources.now self.new id) }
        ensures stays { OnOk result ((n : ℕ) → IsNameKept sources.now self.old n → IsNameKept sources.now self.new n) }
        ensures counted { steps.new ≤ steps.old + 2 }
    {
        let content = self.children_part(alloc, sources.dom().children(id, steps))?;
        let name = name_node(alloc, sources, id, content, steps)?;
        self.kept.put(id, name)?;
        Ok(())
    }

    /// What some children say as parts of a name, joined. It goes no further than to the child with which the text takes no
    /// more.
    fn children_part(&self, alloc: Global, children: &[ObjId]) -> Result<Piece, NoMemory>
        ensures { IfOk result (λ content. (d : Document) → ((c : ℕ) → Contains children.now c → IsNameKept d self.now c) → content ≡ children_part d children.now) }
    {
        let mut content = Piece::empty(alloc);
        for child in children {
            if content.takes_no_more() {
                return Ok(content);
            }
            self.add(*child, &mut content)?;
        }
        Ok(content)
    }

    /// Adds what a child says as a part of a name to what its siblings before it say.
    fn add(&self, child: ObjId, content: &mut Piece) -> Result<(), NoMemory>
        ensures { OnOk result ((n : NodeName) → name_at self.now child ≡ Some n → content.new ≡ joined content.old n.part) }
    {
        match self.kept.get(child) {
            Some(name) => content.append(&name.part),
            None => Ok(()),
        }
    }

    /// The name of a node.
    pub(crate) fn name(&self, id: ObjId) -> &Text
        ensures { (d : Document) → IsNameKept d self.now id → result.now ≡ name_of d id }
    {
        match self.kept.get(id) {
            Some(kept) => &kept.name,
            None => &self.nothing,
        }
    }

    /// The description of a node.
    pub(crate) fn description(&self, id: ObjId) -> &Text
        ensures { (d : Document) → IsNameKept d self.now id → result.now ≡ description_of d id }
    {
        match self.kept.get(id) {
            Some(kept) => &kept.description,
            None => &self.nothing,
        }
    }
}
