//! What nodes say where no reference is followed, as it is kept.
ghost use Rattle.std.specs.Prelude.{◌≡◌, ◌≤◌, ◌+◌, ◌*◌, ℕ, true, false, [], length, Contains, OnOk, IfOk, Some, option_copied};
ghost use Rattle.ax_base.specs.Characters.{Chars};
ghost use Rattle.ax_base.specs.Document.{Document, has, IsChild};
ghost use Rattle.ax_base.specs.Trees.{IsTree};
ghost use Rattle.ax_dom.specs.Among.{is_in};
ghost use Rattle.node_order.specs.Orders.{IsFromAbove};
ghost use Rattle.said_pass.specs.declared.texts.NodeText.{NodeText};
ghost use Rattle.said_pass.specs.Saids.{kept_text, children_text, nothing_said, joined_text, text_at, IsTextKept, AreTextsOf};

use crate::saying::node_text;
use ax_base::{IdMap, NoMemory, ObjId, Steps};
use ax_dom::Dom;
use ax_names::Piece;
use std::alloc::Global;
use std::marker::Model;
use std::sync::ledger::Ledger;

/// What a node says for its parent, where no reference is followed, or what some children say so, joined.
#[derive(Drop)]
pub(crate) struct NodeText {
    /// Without what hides.
    pub(crate) shown: Piece,
    /// With what hides.
    pub(crate) whole: Piece,
}

impl NodeText {
    /// What no children say. It takes no memory.
    fn nothing(alloc: Global) -> NodeText
        ensures { result ≡ nothing_said }
    {
        NodeText {
            shown: Piece::empty(alloc),
            whole: Piece::empty(alloc),
        }
    }

    /// Adds what another child says to what its siblings before it say.
    fn append(&mut self, child: &NodeText) -> Result<(), NoMemory>
        ensures { OnOk result (self.new ≡ joined_text self.old child.now) }
    {
        self.shown.append(&child.shown)?;
        self.whole.append(&child.whole)
    }

    /// Whether it stays the same whatever more children say, since they say more already than it keeps.
    fn takes_no_more(&mut self) -> bool
        ensures full { result ≡ true → (more : NodeText) → self.new ≡ joined_text self.old more }
        ensures stays { (shown whole : Chars) → self.old ≡ kept_text shown whole → self.new ≡ kept_text shown whole }
    {
        let shown = self.shown.takes_no_more();
        let whole = self.whole.takes_no_more();
        shown && whole
    }
}

/// What nodes say where no reference is followed, by their ids. That of nodes that are gone may be among it.
pub(crate) struct NodeTexts {
    kept: IdMap<NodeText>,
}

/// Written out, so that whoever drops one makes one call in its proof.
impl Drop for NodeTexts {
    fn drop(self) {
        let NodeTexts { kept: _kept } = self;
    }
}

impl Model for NodeTexts {
    ghost use Rattle.std.specs.Prelude.{List, ℕ};
    ghost use Rattle.said_pass.specs.declared.texts.NodeText.{NodeText};

    ghost Value = { List (ℕ × NodeText) };

    ghost view = { λ a. a.kept };
}

impl NodeTexts {
    /// Nothing is kept yet. It takes no memory.
    pub(crate) fn new(alloc: Global) -> NodeTexts
        ensures { result ≡ [] }
    {
        NodeTexts {
            kept: IdMap::new(alloc),
        }
    }

    /// Renews what some nodes say, which stand behind their parents, from the last to the first. It reads each of them twice.
    pub(crate) fn renew<L: Ledger>(
        &mut self,
        alloc: Global,
        dom: &Dom,
        nodes: &[ObjId],
        steps: &mut Steps<L>,
    ) -> Result<(), NoMemory>
        requires tree { IsTree dom.now }
        requires order { IsFromAbove dom.now nodes.now }
        requires others { (n : ℕ) → has dom.now n ≡ true → is_in nodes.now n ≡ false → IsTextKept dom.now self.old n }
        ensures value { OnOk result (AreTextsOf dom.now self.new) }
        ensures counted { steps.new ≤ steps.old + 2 * length nodes.now }
    {
        for id in nodes.iter().rev() {
            self.renew_node(alloc, dom, *id, steps)?;
        }
        Ok(())
    }

    /// Renews what a node says, where that of its children is kept. It reads the node twice.
    fn renew_node<L: Ledger>(
        &mut self,
        alloc: Global,
        dom: &Dom,
        id: ObjId,
        steps: &mut Steps<L>,
    ) -> Result<(), NoMemory>
        requires tree { IsTree dom.now }
        requires known { has dom.now id ≡ true }
        requires children { (c : ℕ) → IsChild dom.now id c → IsTextKept dom.now self.old c }
        ensures here { OnOk result (IsTextKept dom.now self.new id) }
        ensures stays { OnOk result ((n : ℕ) → IsTextKept dom.now self.old n → IsTextKept dom.now self.new n) }
        ensures counted { steps.new ≤ steps.old + 2 }
    {
        let inside = self.children_text(alloc, dom.children(id, steps))?;
        let text = node_text(alloc, dom, id, inside, steps)?;
        self.kept.put(id, text)?;
        Ok(())
    }

    /// What some children say, joined. It goes no further than to the child with which neither text takes more.
    fn children_text(&self, alloc: Global, children: &[ObjId]) -> Result<NodeText, NoMemory>
        ensures { IfOk result (λ inside. (d : Document) → ((c : ℕ) → Contains children.now c → IsTextKept d self.now c) → inside ≡ children_text d children.now) }
    {
        let mut inside = NodeText::nothing(alloc);
        for child in children {
            if inside.takes_no_more() {
                return Ok(inside);
            }
            self.add(*child, &mut inside)?;
        }
        Ok(inside)
    }

    /// Adds what a child says to what its siblings before it say.
    fn add(&self, child: ObjId, inside: &mut NodeText) -> Result<(), NoMemory>
        ensures { OnOk result ((t : NodeText) → text_at self.now child ≡ Some t → inside.new ≡ joined_text inside.old t) }
    {
        match self.get(child) {
            Some(text) => inside.append(text),
            None => Ok(()),
        }
    }

    /// What is kept of a node.
    pub(crate) fn get(&self, id: ObjId) -> Option<&NodeText>
        ensures { option_copied result ≡ text_at self.now id }
    {
        self.kept.get(id)
    }
}
