//! The look-ups and texts that the names of one document share.
ghost use Rattle.std.specs.Prelude.{◌≡◌, IfOk, OnOk};
ghost use Rattle.ax_base.specs.Document.{Document, target};
ghost use Rattle.ax_base.specs.AccessibleNames.{first_label};

use crate::gather::Gather;
use crate::memo::Memo;
use crate::pieces::Piece;
use crate::targets::Targets;
use ax_base::{NoMemory, ObjId, Steps};
use ax_dom::Dom;
use std::alloc::Global;
use std::sync::ledger::Ledger;

/// The look-ups and texts that the names of one document share.
///
/// Where a call has no memory left, it is of no more use.
#[derive(Drop)]
pub struct Names {
    pub(crate) sayings: Sayings<Piece>,
}

impl Names {
    ghost use Rattle.ax_names.specs.Sessions.{AreNamesOf};

    /// Nothing is looked up or kept yet. It takes no memory.
    pub fn new(alloc: Global) -> Names
        ensures { (d : Document) → AreNamesOf d result }
    {
        Names {
            sayings: Sayings::new(alloc),
        }
    }
}

/// The look-ups and texts that the nodes of one document share: which elements ids name, what nodes say that references name, and
/// what the children say of nodes that are named from content.
///
/// Where a call has no memory left, it is of no more use.
#[derive(Drop)]
pub struct Sayings<G> {
    pub(crate) targets: Option<Targets>,
    pub(crate) referred: Memo<G>,
    pub(crate) contents: Memo<G>,
}

impl<G: Gather> Sayings<G> {
    ghost use Rattle.ax_names.specs.Sessions.{AreSayingsOf};

    /// Nothing is looked up or kept yet. It takes no memory.
    pub fn new(alloc: Global) -> Sayings<G>
        ensures { (d : Document) → AreSayingsOf G.of d result }
    {
        Sayings {
            targets: None,
            referred: Memo::new(alloc),
            contents: Memo::new(alloc),
        }
    }

    /// The first element with that id, in tree order. The first call of this or of `label` indexes the ids of the document, in one walk.
    pub(crate) fn first<L: Ledger>(
        &mut self,
        alloc: Global,
        dom: &Dom,
        id: &str,
        steps: &mut Steps<L>,
    ) -> Result<Option<ObjId>, NoMemory>
        requires { AreSayingsOf G.of dom.now self.old }
        ensures value { IfOk result (λ found. found ≡ target dom.now id.now) }
        ensures sayings { OnOk result (AreSayingsOf G.of dom.now self.new) }
    {
        if let Some(targets) = &self.targets {
            return Ok(targets.first(id));
        }
        let targets = Targets::new(alloc, dom, steps)?;
        let found = targets.first(id);
        self.targets = Some(targets);
        Ok(found)
    }

    /// The first `label` for that id, in tree order.
    pub(crate) fn label<L: Ledger>(
        &mut self,
        alloc: Global,
        dom: &Dom,
        id: &str,
        steps: &mut Steps<L>,
    ) -> Result<Option<ObjId>, NoMemory>
        requires { AreSayingsOf G.of dom.now self.old }
        ensures value { IfOk result (λ found. found ≡ first_label dom.now id.now) }
        ensures sayings { OnOk result (AreSayingsOf G.of dom.now self.new) }
    {
        if let Some(targets) = &self.targets {
            return Ok(targets.label(id));
        }
        let targets = Targets::new(alloc, dom, steps)?;
        let found = targets.label(id);
        self.targets = Some(targets);
        Ok(found)
    }
}
