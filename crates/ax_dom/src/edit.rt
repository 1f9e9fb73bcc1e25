//! The edits of a document.
ghost use Rattle.std.specs.Prelude.{◌≡◌, IfOk};

use ax_base::{Attrs, NoMemory, ObjId, Rect, Runs, Text};
use std::alloc::Global;

/// An edit of a document.
#[derive(Debug, Drop)]
pub enum Edit {
    /// A new element, before the child `before` of `into`, or as its last child. Its frame is empty.
    InsertElement {
        id: ObjId,
        into: ObjId,
        before: Option<ObjId>,
        tag: Text,
        attrs: Attrs,
    },
    /// A new text, before the child `before` of `into`, or as its last child. It has no runs.
    InsertText {
        id: ObjId,
        into: ObjId,
        before: Option<ObjId>,
        chars: Text,
    },
    /// A node with all that is below it is taken out.
    Remove(ObjId),
    /// A node, with all that is below it, goes before the child `before` of `into`, or becomes its last child.
    Move {
        id: ObjId,
        into: ObjId,
        before: Option<ObjId>,
    },
    /// A value of an attribute, in the place of the one that it has, or at the end.
    Set {
        id: ObjId,
        name: Text,
        value: Text,
    },
    /// No attribute of a name any more. Where there is none nothing changes.
    Unset {
        id: ObjId,
        name: Text,
    },
    /// Other characters of a text. Its runs are taken away.
    Chars {
        id: ObjId,
        chars: Text,
    },
    /// The runs of a text.
    SetRuns {
        id: ObjId,
        runs: Runs,
    },
    /// The frame of an element.
    Frame {
        id: ObjId,
        rect: Rect,
    },
    /// The focused node, or none.
    Focus(Option<ObjId>),
}

impl Edit {
    /// An equal edit.
    pub fn copy(&self, alloc: Global) -> Result<Edit, NoMemory>
        ensures { IfOk result (λ e. e ≡ self.now) }
    {
        match self {
            Edit::InsertElement {
                id,
                into,
                before,
                tag,
                attrs,
            } => Ok(Edit::InsertElement {
                id: *id,
                into: *into,
                before: *before,
                tag: tag.copy(alloc)?,
                attrs: attrs.copy(alloc)?,
            }),
            Edit::InsertText {
                id,
                into,
                before,
                chars,
            } => Ok(Edit::InsertText {
                id: *id,
                into: *into,
                before: *before,
                chars: chars.copy(alloc)?,
            }),
            Edit::Remove(id) => Ok(Edit::Remove(*id)),
            Edit::Move { id, into, before } => Ok(Edit::Move {
                id: *id,
                into: *into,
                before: *before,
            }),
            Edit::Set { id, name, value } => Ok(Edit::Set {
                id: *id,
                name: name.copy(alloc)?,
                value: value.copy(alloc)?,
            }),
            Edit::Unset { id, name } => Ok(Edit::Unset {
                id: *id,
                name: name.copy(alloc)?,
            }),
            Edit::Chars { id, chars } => Ok(Edit::Chars {
                id: *id,
                chars: chars.copy(alloc)?,
            }),
            Edit::SetRuns { id, runs } => Ok(Edit::SetRuns {
                id: *id,
                runs: runs.copy(alloc)?,
            }),
            Edit::Frame { id, rect } => Ok(Edit::Frame {
                id: *id,
                rect: *rect,
            }),
            Edit::Focus(id) => Ok(Edit::Focus(*id)),
        }
    }
}
