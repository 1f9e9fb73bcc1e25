//! The kids of the nodes of a document.
ghost use Rattle.std.specs.Prelude.{◌≡◌, ◌≤◌, ◌+◌, ◌*◌, ℕ, true, false, [], length, IfOk};
ghost use Rattle.ax_base.specs.Document.{Document, has};
ghost use Rattle.ax_base.specs.Kids.{kids};
ghost use Rattle.ax_dom.specs.Among.{is_in};
ghost use Rattle.node_order.specs.Orders.{IsFromAbove};
ghost use Rattle.ax_roles.specs.Inclusion.{inclusion, is_object_by};
ghost use Rattle.ctx_pass.specs.Contexts.{AreContextsOf};
ghost use Rattle.kids_pass.specs.Kids.{IsKidsKept, AreKidsOf};

use crate::kept::KeptKids;
use crate::renewing::renew_each;
use ax_base::{Ids, NoMemory, ObjId, Steps};
use ax_dom::Dom;
use ax_roles::Inclusion;
use ctx_pass::Contexts;
use std::alloc::Global;
use std::marker::Model;
use std::sync::ledger::Ledger;

/// How a node takes part in the tree, and the objects that hang on it, or would, if it were an object.
#[derive(Drop)]
pub(crate) struct NodeKids {
    pub(crate) inclusion: Inclusion,
    pub(crate) kids: Ids,
}

/// The kids of the nodes of a document, by their ids. Those of nodes that are gone may be among them.
#[derive(Drop)]
pub struct Kids {
    kept: KeptKids,
}

impl Model for Kids {
    ghost use Rattle.std.specs.Prelude.{List, ℕ};
    ghost use Rattle.kids_pass.specs.declared.children.NodeKids.{NodeKids};

    ghost Value = { List (ℕ × NodeKids) };

    ghost view = { λ a. a.kept };
}

impl Kids {
    /// No kids. It takes no memory.
    pub fn new(alloc: Global) -> Kids
        ensures { result ≡ [] }
    {
        Kids {
            kept: KeptKids::new(alloc),
        }
    }

    /// The kids of a document, of which `contexts` are the contexts, where those of all nodes but `nodes` are kept already,
    /// with how each takes part in the tree. It reads each of `nodes` twice. At an error what was kept is given up.
    pub fn renew<L: Ledger>(
        self,
        alloc: Global,
        dom: &Dom,
        contexts: &Contexts,
        nodes: &[ObjId],
        steps: &mut Steps<L>,
    ) -> Result<Kids, NoMemory>
        requires contexts { AreContextsOf dom.now contexts.now }
        requires order { IsFromAbove dom.now nodes.now }
        requires others { (n : ℕ) → has dom.now n ≡ true → is_in nodes.now n ≡ false → IsKidsKept dom.now self n }
        ensures value { IfOk result (λ kids. AreKidsOf dom.now kids) }
        ensures counted { steps.new ≤ steps.old + 2 * length nodes.now }
    {
        dom.keeps_tree();
        let Kids { mut kept } = self;
        renew_each(alloc, dom, contexts, nodes, &mut kept, steps)?;
        Ok(Kids { kept })
    }

    /// The kids of a node of the document, in order.
    pub fn kids(&self, id: ObjId) -> &[ObjId]
        ensures { (d : Document) → AreKidsOf d self.now → has d id ≡ true → result.now ≡ kids d id }
    {
        self.kept.kids(id)
    }

    /// Whether a node of the document is an object of its tree. It reads no node.
    pub fn is_object(&self, id: ObjId) -> bool
        ensures { (d : Document) → AreKidsOf d self.now → has d id ≡ true → result ≡ is_object_by (inclusion d id) }
    {
        self.kept.is_object(id)
    }
}
