//! What nodes that come or go change in the index.
ghost use Rattle.std.specs.Prelude.{◌≡◌, take, OnOk, bytes_eq, if◌then◌else◌};
ghost use Rattle.ax_base.specs.AccessibleNames.{is_label_for};
ghost use Rattle.ax_base.specs.Characters.{Chars, tokens};
ghost use Rattle.ax_base.specs.Document.{body, has_id};
ghost use Rattle.dom_ids.specs.Changing.{carried_by, named_by, labelled_by, with_node, with_nodes, AreRising};
ghost use Rattle.dom_ids.specs.Index.{entry_at};
ghost use Rattle.dom_ids.specs.References.{is_text_in};

use crate::change::Change;
use crate::index::IdIndex;
use crate::references::{labelled_id, own_id, text_of};
use ax_base::{Body, MAX_REFERENCES, NoMemory, ObjId, Steps, first_token};
use ax_dom::Dom;
use std::alloc::Global;
use std::sync::ledger::Ledger;

impl IdIndex {
    /// Some nodes of a document come or go, one after another.
    pub(crate) fn change_nodes<L: Ledger>(
        &mut self,
        alloc: Global,
        change: Change,
        dom: &Dom,
        nodes: &[ObjId],
        steps: &mut Steps<L>,
    ) -> Result<(), NoMemory>
        requires rising { AreRising self.old }
        ensures rising { OnOk result (AreRising self.new) }
        ensures value { OnOk result ((x : Chars) → entry_at self.new x ≡ with_nodes change dom.now nodes.now x (entry_at self.old x)) }
    {
        for node in nodes {
            self.change_node(alloc, change, dom, *node, steps)?;
        }
        Ok(())
    }

    /// A node of a document comes or goes.
    fn change_node<L: Ledger>(
        &mut self,
        alloc: Global,
        change: Change,
        dom: &Dom,
        id: ObjId,
        steps: &mut Steps<L>,
    ) -> Result<(), NoMemory>
        requires rising { AreRising self.old }
        ensures rising { OnOk result (AreRising self.new) }
        ensures value { OnOk result ((x : Chars) → entry_at self.new x ≡ with_node change id (body dom.now id) x (entry_at self.old x)) }
    {
        let Some(cell) = dom.cell(id, steps) else {
            return Ok(());
        };
        self.change(alloc, change, id, &cell.body)?;
        Ok(())
    }

    /// What a node is comes or goes.
    fn change(
        &mut self,
        alloc: Global,
        change: Change,
        id: ObjId,
        node: &Body,
    ) -> Result<(), NoMemory>
        requires rising { AreRising self.old }
        ensures rising { OnOk result (AreRising self.new) }
        ensures value { OnOk result ((x : Chars) → entry_at self.new x ≡ with_node change id node.now x (entry_at self.old x)) }
    {
        self.change_carrier(alloc, change, id, node)?;
        self.change_label(alloc, change, id, node)?;
        self.change_namer(alloc, change, id, text_of(node, "aria-labelledby"))?;
        self.change_namer(alloc, change, id, text_of(node, "aria-describedby"))?;
        Ok(())
    }

    /// An element comes to those with its `id`, or goes.
    fn change_carrier(
        &mut self,
        alloc: Global,
        change: Change,
        id: ObjId,
        node: &Body,
    ) -> Result<(), NoMemory>
        requires rising { AreRising self.old }
        ensures rising { OnOk result (AreRising self.new) }
        ensures value { OnOk result ((x : Chars) → entry_at self.new x ≡ (if has_id x node.now then carried_by change id x (entry_at self.old x) else entry_at self.old x)) }
    {
        let Some(text) = own_id(node) else {
            return Ok(());
        };
        let mut entry = self.take(alloc, text);
        entry.carry(change, id, text)?;
        self.put(alloc, text, entry)?;
        Ok(())
    }

    /// A `label` comes to those for its `for`, or goes.
    fn change_label(
        &mut self,
        alloc: Global,
        change: Change,
        id: ObjId,
        node: &Body,
    ) -> Result<(), NoMemory>
        requires rising { AreRising self.old }
        ensures rising { OnOk result (AreRising self.new) }
        ensures value { OnOk result ((x : Chars) → entry_at self.new x ≡ (if is_label_for x node.now then labelled_by change id (entry_at self.old x) else entry_at self.old x)) }
    {
        let Some(text) = labelled_id(node) else {
            return Ok(());
        };
        let mut entry = self.take(alloc, text);
        entry.label(change, id)?;
        self.put(alloc, text, entry)?;
        Ok(())
    }

    /// An element comes to those that refer to the first eight tokens of a text, or goes.
    fn change_namer(
        &mut self,
        alloc: Global,
        change: Change,
        id: ObjId,
        text: &str,
    ) -> Result<(), NoMemory>
        requires rising { AreRising self.old }
        ensures rising { OnOk result (AreRising self.new) }
        ensures value { OnOk result ((x : Chars) → entry_at self.new x ≡ (if is_text_in (take MAX_REFERENCES (tokens text.now)) x then named_by change id (entry_at self.old x) else entry_at self.old x)) }
    {
        let mut rest = text;
        for _ in 0..MAX_REFERENCES {
            let Some((token, after)) = first_token(rest) else {
                return Ok(());
            };
            self.change_name(alloc, change, id, token)?;
            rest = after;
        }
        Ok(())
    }

    /// An element comes to those that refer to a text, or goes.
    fn change_name(
        &mut self,
        alloc: Global,
        change: Change,
        id: ObjId,
        token: &str,
    ) -> Result<(), NoMemory>
        requires rising { AreRising self.old }
        ensures rising { OnOk result (AreRising self.new) }
        ensures value { OnOk result ((x : Chars) → entry_at self.new x ≡ (if bytes_eq x token.now then named_by change id (entry_at self.old x) else entry_at self.old x)) }
    {
        let mut entry = self.take(alloc, token);
        entry.name(change, id)?;
        self.put(alloc, token, entry)?;
        Ok(())
    }
}
