//! The contexts of the nodes of a document.
ghost use Rattle.std.specs.Prelude.{◌≡◌, ◌≤◌, ◌+◌, ◌||◌, ℕ, true, false, [], length, IfOk};
ghost use Rattle.ax_base.specs.Document.{Document, has};
ghost use Rattle.ax_base.specs.Context.{is_out};
ghost use Rattle.ax_dom.specs.Among.{is_in};
ghost use Rattle.node_order.specs.Orders.{IsFromAbove};
ghost use Rattle.ctx_pass.specs.Contexts.{context_of, IsContextKept, AreContextsOf};

use crate::kept::KeptContexts;
use crate::renewing::renew_each;
use ax_base::{Live, NoMemory, ObjId, Steps};
use ax_dom::Dom;
use std::alloc::Global;
use std::marker::Model;
use std::sync::ledger::Ledger;

/// What a node takes over from the nodes above it, with what it sets itself.
#[derive(Clone, Copy, Debug, PartialEq, Eq)]
pub struct Context {
    /// Whether it or a node above it hides.
    pub hidden: bool,
    /// Whether a node above it leaves out what is below it.
    pub pruned: bool,
    /// The live that it or the nearest node above it sets, else off.
    pub live: Live,
}

impl Context {
    /// Whether a node is out of the tree with all that is below it.
    pub fn is_out(self) -> bool
        ensures { result ≡ (self.hidden || self.pruned) }
    {
        self.hidden || self.pruned
    }
}

/// The contexts of the nodes of a document, by their ids. Those of nodes that are gone may be among them.
#[derive(Drop)]
pub struct Contexts {
    kept: KeptContexts,
}

impl Model for Contexts {
    ghost use Rattle.std.specs.Prelude.{List, ℕ};
    ghost use Rattle.ctx_pass.specs.declared.standing.Standing.{Standing};

    ghost Value = { List (ℕ × Standing) };

    ghost view = { λ a. a.kept };
}

impl Contexts {
    /// No contexts. It takes no memory.
    pub fn new(alloc: Global) -> Contexts
        ensures { result ≡ [] }
    {
        Contexts {
            kept: KeptContexts::new(alloc),
        }
    }

    /// The contexts of a document, where those of all nodes but `nodes` are kept already. It reads each of `nodes` once. At
    /// an error what was kept is given up.
    pub fn renew<L: Ledger>(
        self,
        dom: &Dom,
        nodes: &[ObjId],
        steps: &mut Steps<L>,
    ) -> Result<Contexts, NoMemory>
        requires order { IsFromAbove dom.now nodes.now }
        requires others { (n : ℕ) → has dom.now n ≡ true → is_in nodes.now n ≡ false → IsContextKept dom.now self n }
        ensures value { IfOk result (λ contexts. AreContextsOf dom.now contexts) }
        ensures counted { steps.new ≤ steps.old + length nodes.now }
    {
        dom.keeps_tree();
        let Contexts { mut kept } = self;
        renew_each(dom, nodes, &mut kept, steps)?;
        Ok(Contexts { kept })
    }

    /// The context of a node of the document.
    pub fn context(&self, id: ObjId) -> Context
        ensures { (d : Document) → AreContextsOf d self.now → has d id ≡ true → result ≡ context_of d id }
    {
        self.kept.context(id)
    }

    /// Whether a node of the document is out of the tree with all that is below it.
    pub fn is_out(&self, id: ObjId) -> bool
        ensures { (d : Document) → AreContextsOf d self.now → has d id ≡ true → result ≡ is_out d id }
    {
        self.kept.is_out(id)
    }
}
