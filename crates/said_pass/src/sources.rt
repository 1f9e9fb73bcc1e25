//! What the names of a document are looked up in.
ghost use Rattle.std.specs.Prelude.{◌≡◌, true, OnOk};
ghost use Rattle.ax_base.specs.AccessibleNames.{first_label};
ghost use Rattle.ax_base.specs.Document.{has, target};
ghost use Rattle.ax_names.specs.Pieces.{piece_of, joined};
ghost use Rattle.dom_ids.specs.Ordering.{first_in};
ghost use Rattle.said_pass.specs.Saids.{said_by_target};

use crate::texts::NodeTexts;
use ax_base::{NoMemory, ObjId};
use ax_dom::Dom;
use ax_names::Piece;
use ctx_pass::Contexts;
use dom_ids::IdIndex;
use std::marker::Model;

/// A document, with what its names are looked up in: the elements that texts name, the contexts of its nodes, and what they
/// say where no reference is followed. A clause sees it as the document.
#[derive(Drop)]
pub(crate) struct Sources<'a> {
    pub(crate) dom: &'a Dom,
    pub(crate) ids: &'a IdIndex,
    pub(crate) contexts: &'a Contexts,
    pub(crate) texts: &'a NodeTexts,
}

impl<'a> Model for Sources<'a> {
    ghost use Rattle.ax_base.specs.Document.{Document};
    ghost use Rattle.said_pass.specs.Saids.{AreSourcesOf};

    ghost Value = { Document };

    ghost view = { λ s. s.dom.now };

    ghost invariant = { λ s. AreSourcesOf s.dom.now s.ids.now s.contexts.now s.texts.now };
}

impl<'a> Sources<'a> {
    /// The document.
    pub(crate) fn dom(&self) -> &Dom
        ensures { result.now ≡ self.now }
    {
        self.dom
    }

    /// The first element with that id, in tree order.
    pub(crate) fn first(&self, id: &str) -> Option<ObjId>
        ensures { result ≡ target self.now id.now }
    {
        self.ids.first(id)
    }

    /// The first `label` for that id, in tree order.
    pub(crate) fn label(&self, id: &str) -> Option<ObjId>
        ensures { result ≡ first_label self.now id.now }
    {
        first_of(self.ids.labels(id))
    }

    /// Adds what a node says that is referred to: where it is hidden, all that it says.
    pub(crate) fn add_said(&self, id: ObjId, into: &mut Piece) -> Result<(), NoMemory>
        requires known { has self.now id ≡ true }
        ensures { OnOk result (into.new ≡ joined into.old (piece_of (said_by_target self.now id))) }
    {
        let Some(text) = self.texts.get(id) else {
            return Ok(());
        };
        if self.contexts.context(id).hidden {
            return into.append(&text.whole);
        }
        into.append(&text.shown)
    }
}

/// The first of some nodes.
fn first_of(nodes: &[ObjId]) -> Option<ObjId>
    ensures { result ≡ first_in nodes.now }
{
    nodes.first().copied()
}
