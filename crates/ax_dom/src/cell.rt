//! A node of the document, with its place.
ghost use Rattle.std.specs.Prelude.{◌≡◌, IfOk};

use crate::bodies::copy_body;
use ax_base::{Body, Ids, NoMemory, ObjId};
use std::alloc::Global;

/// A node of the document.
#[derive(Drop)]
pub struct Cell {
    /// Its own id.
    pub id: ObjId,
    /// Its parent, or `None` of the root.
    pub parent: Option<ObjId>,
    /// How many ancestors it has, from 0 of the root to 64.
    pub depth: u8,
    /// What it is.
    pub body: Body,
}

/// A node and its children, in order.
#[derive(Drop)]
pub struct NodeEntry {
    pub cell: Cell,
    pub children: Ids,
}

impl Cell {
    /// An equal cell.
    fn copy(&self, alloc: Global) -> Result<Cell, NoMemory>
        ensures { IfOk result (λ c. c ≡ self.now) }
    {
        Ok(Cell {
            id: self.id,
            parent: self.parent,
            depth: self.depth,
            body: copy_body(alloc, &self.body)?,
        })
    }
}

impl NodeEntry {
    /// An equal node with equal children.
    pub fn copy(&self, alloc: Global) -> Result<NodeEntry, NoMemory>
        ensures { IfOk result (λ s. s ≡ self.now) }
    {
        Ok(NodeEntry {
            cell: self.cell.copy(alloc)?,
            children: self.children.copy(alloc)?,
        })
    }
}
