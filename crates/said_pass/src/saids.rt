//! What the nodes of a document say, their names and their descriptions.
ghost use Rattle.std.specs.Prelude.{◌≡◌, ◌≤◌, ◌+◌, ◌*◌, ℕ, true, false, length, IfOk};
ghost use Rattle.ax_base.specs.AccessibleNames.{name_of, description_of};
ghost use Rattle.ax_base.specs.Document.{Document, has};
ghost use Rattle.ax_dom.specs.Among.{is_in};
ghost use Rattle.ctx_pass.specs.Contexts.{AreContextsOf};
ghost use Rattle.dom_ids.specs.Index.{IsIndexOf};
ghost use Rattle.node_order.specs.Orders.{IsFromAbove};
ghost use Rattle.said_pass.specs.Saids.{nothing_kept, IsSaidKept, AreSaidsOf};

use crate::names::NodeNames;
use crate::sources::Sources;
use crate::texts::NodeTexts;
use ax_base::{NoMemory, ObjId, Steps, Text};
use ax_dom::Dom;
use ctx_pass::Contexts;
use dom_ids::IdIndex;
use std::alloc::Global;
use std::sync::ledger::Ledger;

/// What the nodes of a document say, their names and their descriptions, by their ids. Those of nodes that are gone may be among
/// them.
pub struct Saids {
    pub(crate) texts: NodeTexts,
    pub(crate) names: NodeNames,
}

/// Written out, so that whoever drops one makes one call in its proof.
impl Drop for Saids {
    fn drop(self) {
        let Saids {
            texts: _texts,
            names: _names,
        } = self;
    }
}

impl Saids {
    /// Nothing is kept yet. It takes no memory.
    pub fn new(alloc: Global) -> Saids
        ensures { result ≡ nothing_kept }
    {
        Saids {
            texts: NodeTexts::new(alloc),
            names: NodeNames::new(alloc),
        }
    }

    /// What the nodes of a document say and are called, of which `ids` is the index and `contexts` are the contexts, where that
    /// of all nodes but `nodes` is kept already. These stand in an order from above, each behind its parent, and it reads each of
    /// them four times. At an error what was kept is given up.
    pub fn renew<L: Ledger>(
        self,
        alloc: Global,
        dom: &Dom,
        ids: &IdIndex,
        contexts: &Contexts,
        nodes: &[ObjId],
        steps: &mut Steps<L>,
    ) -> Result<Saids, NoMemory>
        requires ids { IsIndexOf dom.now ids.now }
        requires contexts { AreContextsOf dom.now contexts.now }
        requires order { IsFromAbove dom.now nodes.now }
        requires others { (n : ℕ) → has dom.now n ≡ true → is_in nodes.now n ≡ false → IsSaidKept dom.now self n }
        ensures value { IfOk result (λ saids. AreSaidsOf dom.now saids) }
        ensures counted { steps.new ≤ steps.old + 4 * length nodes.now }
    {
        dom.keeps_tree();
        let Saids {
            mut texts,
            mut names,
        } = self;
        // First the texts, which follow no reference, and over these the names.
        texts.renew(alloc, dom, nodes, steps)?;
        let sources = Sources {
            dom,
            ids,
            contexts,
            texts: &texts,
        };
        names.renew(alloc, &sources, nodes, steps)?;
        Ok(Saids { texts, names })
    }

    /// The accessible name of a node of the document.
    pub fn name(&self, id: ObjId) -> &Text
        ensures { (d : Document) → AreSaidsOf d self.now → has d id ≡ true → result.now ≡ name_of d id }
    {
        self.names.name(id)
    }

    /// The accessible description of a node of the document.
    pub fn description(&self, id: ObjId) -> &Text
        ensures { (d : Document) → AreSaidsOf d self.now → has d id ≡ true → result.now ≡ description_of d id }
    {
        self.names.description(id)
    }
}
