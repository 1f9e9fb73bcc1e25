//! Which nodes count for what a node says, and whether references are followed (AccName 1.2, section 4.3.2, steps 2A and 2B).
ghost use Rattle.std.specs.Prelude.{◌≡◌, ℕ, Bool, [], true, IfOk, OnOk, IfSome, codes};
ghost use Rattle.ax_base.specs.Characters.{Chars};
ghost use Rattle.ax_base.specs.Document.{Document, Spot};
ghost use Rattle.ax_base.specs.Values.{text_in};
ghost use Rattle.ax_base.specs.Roles.{hides};
ghost use Rattle.ax_base.specs.Said.{said0, said_all, nothing_hides};
ghost use Rattle.ax_base.proofs.SaidLaws.{said0-children, said_all-children};
ghost use Rattle.ax_names.specs.Scopes.{AreSaid, children_say};

use crate::gather::Gather;
use ax_base::{Attrs, Body, NoMemory, ObjId, Steps};
use ax_dom::Dom;
use ax_roles::node_hides;
use std::alloc::Global;
use std::sync::ledger::Ledger;

/// Which nodes count for what a node says, and whether references are followed, while texts of one document are gathered.
///
/// Where a call has no memory left, the scope is of no more use.
pub trait Scope<G: Gather> {
    // whether a node is left out
    ghost leaves_out: { Spot → Bool };

    // what an `aria-labelledby` refers to
    ghost refers: { Document → Chars → Chars };

    // what a node says
    ghost says: { Document → ℕ → Chars };

    // whether what is kept is of that document
    ghost keeps: { Document → Self → Type 0 };

    /// Whether a node says nothing, since it is hidden.
    fn is_left_out(&self, id: ObjId, node: &Body) -> bool
        ensures { result ≡ leaves_out (record { id = id; body = node.now }) };

    /// Gathers what the nodes say that the `aria-labelledby` of an element names.
    fn referred<L: Ledger>(
        &mut self,
        alloc: Global,
        dom: &Dom,
        attrs: &Attrs,
        steps: &mut Steps<L>,
    ) -> Result<G, NoMemory>
        requires kept { keeps dom.now self.old }
        ensures value { IfOk result (λ p. p ≡ G.of (refers dom.now (text_in (codes "aria-labelledby") attrs.now))) }
        ensures kept { OnOk result (keeps dom.now self.new) };

    /// What the children of a node say, where an earlier call has gathered it.
    fn kept_below(&self, id: ObjId) -> Option<&G>
        ensures { IfSome result (λ p. (d : Document) → keeps d self.now → p.now ≡ G.of (children_say d leaves_out (says d) id)) };

    ghost tells: { AreSaid leaves_out refers says };
}

/// The nodes that are not hidden. No reference is followed.
#[derive(Drop)]
pub struct Shown {}

impl<G: Gather> Scope<G> for Shown {
    ghost leaves_out = { hides };

    ghost refers = { λ d text. [] };

    ghost says = { said0 };

    // nothing is kept
    ghost keeps = { λ d s. true ≡ true };

    ghost tells = { said0-children };

    fn is_left_out(&self, id: ObjId, node: &Body) -> bool {
        node_hides(id, node)
    }

    fn referred<L: Ledger>(
        &mut self,
        alloc: Global,
        _dom: &Dom,
        _attrs: &Attrs,
        _steps: &mut Steps<L>,
    ) -> Result<G, NoMemory> {
        Ok(G::empty(alloc))
    }

    fn kept_below(&self, _id: ObjId) -> Option<&G> {
        None
    }
}

/// All nodes, also those that are hidden. No reference is followed.
#[derive(Drop)]
pub struct Whole {}

impl<G: Gather> Scope<G> for Whole {
    ghost leaves_out = { nothing_hides };

    ghost refers = { λ d text. [] };

    ghost says = { said_all };

    // nothing is kept
    ghost keeps = { λ d s. true ≡ true };

    ghost tells = { said_all-children };

    fn is_left_out(&self, _id: ObjId, _node: &Body) -> bool {
        false
    }

    fn referred<L: Ledger>(
        &mut self,
        alloc: Global,
        _dom: &Dom,
        _attrs: &Attrs,
        _steps: &mut Steps<L>,
    ) -> Result<G, NoMemory> {
        Ok(G::empty(alloc))
    }

    fn kept_below(&self, _id: ObjId) -> Option<&G> {
        None
    }
}
