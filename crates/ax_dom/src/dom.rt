//! The document.
mod changes;
mod copies;
mod refusals;
mod subtrees;

ghost use Rattle.std.specs.Prelude.{◌≡◌, ◌+◌, IfOk, OnOk, OnErr, IfErr, if◌then◌else◌, Some, None, option_copied};
ghost use Rattle.ax_base.specs.Document.{children, has, parent};
ghost use Rattle.ax_base.specs.Trees.{IsTree};
ghost use Rattle.ax_dom.specs.NodeMaps.{cell_at};
ghost use Rattle.ax_dom.specs.Bounds.{EditKeepsBounds};
ghost use Rattle.ax_dom.specs.Changes.{new_document, edited};
ghost use Rattle.ax_dom.specs.Refusals.{edit_cause, is_no_memory};

use crate::cause::EditCause;
use crate::cell::{Cell, NodeEntry};
use crate::edit::Edit;
use crate::node_map::NodeMap;
use crate::used::UsedIds;
use ax_base::{Attrs, Body, Ids, NoMemory, ObjId, Rect, Steps, Text};
use std::alloc::Global;
use std::marker::Model;
use std::sync::ledger::Ledger;

/// The document. A clause sees it as its nodes, the focused node and the ids ever inserted.
#[derive(Drop)]
pub struct Dom {
    entries: NodeMap,
    focus: Option<ObjId>,
    used: UsedIds,
}

impl Model for Dom {
    ghost use Rattle.ax_base.specs.Document.{Document};
    ghost use Rattle.ax_dom.specs.NodeMaps.{document_of, IsKept};

    ghost Value = { Document };

    ghost view = { λ a. document_of a.entries a.focus a.used };

    ghost invariant = { λ a. IsKept (document_of a.entries a.focus a.used) a.entries };
}

impl Dom {
    /// The document that has the root alone, an element with the tag `html`.
    pub fn new(alloc: Global) -> Result<Dom, NoMemory>
        ensures { IfOk result (λ dom. dom ≡ new_document) }
    {
        let cell = Cell {
            id: ObjId::ROOT,
            parent: None,
            depth: 0,
            body: Body::Element {
                tag: Text::from_str(alloc, "html")?,
                attrs: Attrs::new(alloc),
                frame: NO_FRAME,
            },
        };
        let children = Ids::new(alloc);
        let mut entries = NodeMap::new(alloc);
        entries.add(ObjId::ROOT, NodeEntry { cell, children })?;
        Ok(Dom {
            entries,
            focus: None,
            used: UsedIds::new(alloc),
        })
    }

    /// The node of an id, or `None` exactly where the document has none.
    pub fn cell<L: Ledger>(&self, id: ObjId, steps: &mut Steps<L>) -> Option<&Cell>
        ensures value { option_copied result ≡ cell_at self.now id }
        ensures tree { IsTree self.now }
        ensures counted { steps.new ≡ steps.old + 1 }
    {
        steps.tick();
        match self.entries.get(id) {
            Some(entry) => Some(&entry.cell),
            None => None,
        }
    }

    /// The children of a node, in order, or none of an unknown id.
    pub fn children<L: Ledger>(&self, id: ObjId, steps: &mut Steps<L>) -> &[ObjId]
        ensures value { result.now ≡ children self.now id }
        ensures tree { IsTree self.now }
        ensures counted { steps.new ≡ steps.old + 1 }
    {
        steps.tick();
        self.children_of(id)
    }

    /// The parent of a node, or `None` exactly of the root and of an unknown id.
    pub fn parent<L: Ledger>(&self, id: ObjId, steps: &mut Steps<L>) -> Option<ObjId>
        ensures value { result ≡ parent self.now id }
        ensures counted { steps.new ≡ steps.old + 1 }
    {
        steps.tick();
        self.parent_of(id)
    }

    /// Whether it has a node of that id. It counts no step, and takes no memory.
    pub fn has(&self, id: ObjId) -> bool
        ensures { result ≡ has self.now id }
    {
        self.entries.has(id)
    }

    /// The focused node.
    pub fn focus(&self) -> Option<ObjId>
        ensures { result ≡ self.now.focus }
    {
        self.focus
    }

    /// Does an edit. It is refused with the first cause that holds, exactly where one holds, and for want of memory
    /// only where none does. After a refusal the document is unchanged. The rectangles of the edit are within bounds.
    pub fn apply(&mut self, alloc: Global, e: &Edit) -> Result<(), EditCause>
        requires within { EditKeepsBounds e.now }
        ensures accepted { OnOk result (edit_cause self.old e.now ≡ None) }
        ensures ok { OnOk result (self.new ≡ edited self.old e.now) }
        ensures refused { IfErr result (λ cause. edit_cause self.old e.now ≡ (if is_no_memory cause then None else Some cause)) }
        ensures err { OnErr result (self.new ≡ self.old) }
    {
        if let Some(cause) = self.cause_of(e) {
            return Err(cause);
        }
        let edit = e.copy(alloc)?;
        self.apply_accepted(alloc, edit)?;
        Ok(())
    }

    /// The parent of a node.
    fn parent_of(&self, id: ObjId) -> Option<ObjId>
        ensures value { result ≡ parent self.now id }
        ensures tree { IsTree self.now }
    {
        match self.entries.get(id) {
            Some(entry) => entry.cell.parent,
            None => None,
        }
    }
}

/// The frame of a new element.
const NO_FRAME: Rect = Rect {
    x: 0,
    y: 0,
    w: 0,
    h: 0,
};
