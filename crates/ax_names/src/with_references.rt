//! What nodes say as parts of a name: their own references count, and those of what is below them.
ghost use Rattle.std.specs.Prelude.{◌≡◌, IfOk, OnOk};
ghost use Rattle.ax_base.specs.Roles.{hides};
ghost use Rattle.ax_base.specs.References.{said1};
ghost use Rattle.ax_base.specs.AccessibleNames.{content_text};
ghost use Rattle.ax_base.proofs.SaidLaws.{said1-children};
ghost use Rattle.ax_names.specs.Sessions.{AreSayingsOf, referred_by};

use crate::aria_labelledby::referred_by;
use crate::gather::Gather;
use crate::name_from_content::said_by_children;
use crate::scope::Scope;
use crate::session::Sayings;
use ax_base::{Attrs, Body, NoMemory, ObjId, Steps};
use ax_dom::Dom;
use ax_roles::node_hides;
use std::alloc::Global;
use std::sync::ledger::Ledger;

impl<G: Gather> Scope<G> for Sayings<G> {
    ghost leaves_out = { hides };

    ghost refers = { referred_by };

    ghost says = { said1 };

    ghost keeps = { AreSayingsOf G.of };

    ghost tells = { said1-children };

    fn is_left_out(&self, id: ObjId, node: &Body) -> bool {
        node_hides(id, node)
    }

    fn referred<L: Ledger>(
        &mut self,
        alloc: Global,
        dom: &Dom,
        attrs: &Attrs,
        steps: &mut Steps<L>,
    ) -> Result<G, NoMemory> {
        referred_by(alloc, dom, self, attrs.text("aria-labelledby"), steps)
    }

    fn kept_below(&self, id: ObjId) -> Option<&G> {
        self.contents.get(id)
    }
}

/// Gathers what the children of a node say as parts of its name. The first call for a node gathers it, later ones copy it.
pub(crate) fn content<G: Gather, L: Ledger>(
    alloc: Global,
    dom: &Dom,
    sayings: &mut Sayings<G>,
    id: ObjId,
    steps: &mut Steps<L>,
) -> Result<G, NoMemory>
    requires sayings { AreSayingsOf G.of dom.now sayings.old }
    ensures value { IfOk result (λ p. p ≡ G.of (content_text dom.now id)) }
    ensures sayings { OnOk result (AreSayingsOf G.of dom.now sayings.new) }
{
    if let Some(kept) = sayings.contents.get(id) {
        return kept.copy(alloc);
    }
    let said: G = said_by_children(alloc, dom, sayings, id, steps)?;
    let copy = said.copy(alloc)?;
    sayings.contents.keep(id, copy)?;
    Ok(said)
}
