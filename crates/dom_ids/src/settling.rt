//! The tree order of the elements of the texts that an edit touches.
ghost use Rattle.std.specs.Prelude.{◌≡◌, false, OnOk, IfOk, bytes_eq};
ghost use Rattle.std.specs.Option.{option_map_or};
ghost use Rattle.ax_base.specs.Document.{body};
ghost use Rattle.ax_base.specs.Trees.{IsTree};
ghost use Rattle.dom_ids.specs.Index.{entry_of};
ghost use Rattle.dom_ids.specs.Settling.{is_carried, is_carried_among, HasItsNodes, HaveTheirNodes, AreSettled};

use crate::index::{Entry, IdIndex, unless_empty};
use crate::ordering::{first_in_order, put_in_order};
use crate::references::{labelled_id, own_id};
use ax_base::{NoMemory, ObjId, Steps};
use ax_dom::Dom;
use std::alloc::Global;
use std::sync::ledger::Ledger;

impl Entry {
    /// Puts the labels into tree order, and finds the first element.
    fn settle<L: Ledger>(
        &mut self,
        alloc: Global,
        dom: &Dom,
        text: &str,
        steps: &mut Steps<L>,
    ) -> Result<(), NoMemory>
        requires tree { IsTree dom.now }
        requires nodes { HasItsNodes dom.now text.now self.old }
        ensures { OnOk result (self.new ≡ entry_of dom.now text.now) }
    {
        put_in_order(alloc, dom, &mut self.labels, steps)?;
        let first = first_in_order(alloc, dom, self.carriers.as_slice(), steps)?;
        self.first = unless_empty(text, first);
        Ok(())
    }
}

impl IdIndex {
    /// Settles the texts that some nodes carry, in a document that they are in or were in.
    pub(crate) fn settle_nodes<L: Ledger>(
        &mut self,
        alloc: Global,
        dom: &Dom,
        home: &Dom,
        nodes: &[ObjId],
        steps: &mut Steps<L>,
    ) -> Result<(), NoMemory>
        requires tree { IsTree dom.now }
        requires nodes { HaveTheirNodes dom.now self.old }
        ensures nodes { OnOk result (HaveTheirNodes dom.now self.new) }
        ensures settled { OnOk result (AreSettled dom.now (is_carried_among home.now nodes.now) self.old self.new) }
    {
        for node in nodes {
            self.settle_node(alloc, dom, home, *node, steps)?;
        }
        Ok(())
    }

    /// Settles the texts that a node carries.
    fn settle_node<L: Ledger>(
        &mut self,
        alloc: Global,
        dom: &Dom,
        home: &Dom,
        id: ObjId,
        steps: &mut Steps<L>,
    ) -> Result<(), NoMemory>
        requires tree { IsTree dom.now }
        requires nodes { HaveTheirNodes dom.now self.old }
        ensures nodes { OnOk result (HaveTheirNodes dom.now self.new) }
        ensures settled { OnOk result (AreSettled dom.now (λ x. is_carried x (body home.now id)) self.old self.new) }
    {
        let Some(cell) = home.cell(id, steps) else {
            return Ok(());
        };
        self.settle_text(alloc, dom, own_id(&cell.body), steps)?;
        self.settle_text(alloc, dom, labelled_id(&cell.body), steps)?;
        Ok(())
    }

    /// Settles a text, if there is one.
    fn settle_text<L: Ledger>(
        &mut self,
        alloc: Global,
        dom: &Dom,
        text: Option<&str>,
        steps: &mut Steps<L>,
    ) -> Result<(), NoMemory>
        requires tree { IsTree dom.now }
        requires nodes { HaveTheirNodes dom.now self.old }
        ensures nodes { OnOk result (HaveTheirNodes dom.now self.new) }
        ensures settled { OnOk result (AreSettled dom.now (λ x. option_map_or (λ w. bytes_eq x w.now) text.entry false) self.old self.new) }
    {
        let Some(text) = text else {
            return Ok(());
        };
        let mut entry = self.take(alloc, text);
        entry.settle(alloc, dom, text, steps)?;
        self.put(alloc, text, entry)?;
        Ok(())
    }
}
