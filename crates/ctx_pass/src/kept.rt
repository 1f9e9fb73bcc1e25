//! Contexts by node.
ghost use Rattle.std.specs.Prelude.{◌≡◌, true, [], OnOk, Some};
ghost use Rattle.std.specs.Ordering.{nat_cmp};
ghost use Rattle.std.specs.BTreeMap.{insert_entry};
ghost use Rattle.ax_base.specs.Document.{Document, has};
ghost use Rattle.ax_base.specs.Context.{is_out};
ghost use Rattle.ctx_pass.specs.Contexts.{context_of, handed_on, AreContextsOf};

use crate::contexts::Context;
use crate::standing::{OUTSIDE, Standing};
use ax_base::{IdMap, IdSet, NoMemory, ObjId};
use std::alloc::Global;
use std::marker::Model;

/// Contexts by node, with what the children of each take over. Each node that is out by what is kept of it has a mark, so that
/// of most of the others one look tells that they are not.
#[derive(Drop)]
pub(crate) struct KeptContexts {
    by_node: IdMap<Standing>,
    out: IdSet,
}

impl Model for KeptContexts {
    ghost use Rattle.std.specs.Prelude.{List, ℕ};
    ghost use Rattle.ctx_pass.specs.declared.standing.Standing.{Standing};
    ghost use Rattle.ctx_pass.specs.Contexts.{OnlyMarkedAreOut};

    ghost Value = { List (ℕ × Standing) };

    ghost view = { λ a. a.by_node };

    ghost invariant = { λ a. OnlyMarkedAreOut a.out a.by_node };
}

impl KeptContexts {
    /// No contexts.
    pub(crate) fn new(alloc: Global) -> KeptContexts
        ensures { result ≡ [] }
    {
        KeptContexts {
            by_node: IdMap::new(alloc),
            out: IdSet::new(alloc),
        }
    }

    /// The context of a node of the document.
    pub(crate) fn context(&self, id: ObjId) -> Context
        ensures { (d : Document) → AreContextsOf d self.now → has d id ≡ true → result ≡ context_of d id }
    {
        match self.by_node.get(id) {
            Some(standing) => standing.here,
            None => OUTSIDE,
        }
    }

    /// Whether a node of the document is out of the tree with all that is below it.
    pub(crate) fn is_out(&self, id: ObjId) -> bool
        ensures { (d : Document) → AreContextsOf d self.now → has d id ≡ true → result ≡ is_out d id }
    {
        if !self.out.has(id) {
            return false;
        }
        self.context(id).is_out()
    }

    /// What a node takes over of which `parent` is the parent, or which is the root.
    pub(crate) fn above(&self, parent: Option<ObjId>) -> Context
        ensures { result ≡ handed_on self.now parent }
    {
        match parent {
            Some(id) => self.below(id),
            None => OUTSIDE,
        }
    }

    /// What the children of a node take over.
    fn below(&self, id: ObjId) -> Context
        ensures { result ≡ handed_on self.now (Some id) }
    {
        match self.by_node.get(id) {
            Some(standing) => standing.below,
            None => OUTSIDE,
        }
    }

    /// Keeps how a node stands.
    pub(crate) fn keep(&mut self, id: ObjId, standing: Standing) -> Result<(), NoMemory>
        ensures { OnOk result (self.new ≡ insert_entry nat_cmp self.old id standing) }
    {
        if standing.here.is_out() {
            self.out.add(id)?;
            return self.by_node.put(id, standing);
        }
        self.by_node.put(id, standing)?;
        self.out.remove(id);
        Ok(())
    }
}
