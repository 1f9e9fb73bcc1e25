//! What a record is made of, before any of it is copied.
ghost use Rattle.std.specs.Prelude.{◌≡◌, IfOk, bytes_eq, option_copied};
ghost use Rattle.std.specs.Cmp.Lexicographic.{pointwise};
ghost use Rattle.std.specs.Option.{option_eq};
ghost use Rattle.ax_base.specs.Rects.{HasRectsWithin};
ghost use Rattle.ax_base.specs.States.{value_by};
ghost use Rattle.ax_base.specs.contracts.rect.RunPartialEq.TheImpl as run_tests;
ghost use Rattle.ax_fresh.specs.Contents.{record_by, same_place, same_words, same_kind, same_content, same_record};
ghost use Rattle.ax_record.specs.Records.{chars_of, runs_of};

use crate::content::{Called, level_of, record_called, states_of};
use crate::frames::frame_of;
use ax_base::{Body, Ids, Live, NoMemory, ObjId, Role, Runs, Text};
use ax_dom::Cell;
use ax_record::Record;
use std::alloc::Global;

/// What the record of an object is made of: the place of its node, and what is known of it. It borrows all that takes memory.
#[derive(Drop)]
pub struct RecordParts<'a> {
    /// The place of the node.
    pub cell: &'a Cell,
    /// What the object is.
    pub role: Role,
    /// How urgently changes in it are announced (`aria-live`).
    pub live: Live,
    /// The object on which it hangs, or `None` of the root.
    pub parent: Option<ObjId>,
    /// The objects that hang on it, in order.
    pub kids: &'a [ObjId],
    /// Its accessible name.
    pub name: &'a Text,
    /// Its accessible description.
    pub description: &'a Text,
}

impl RecordParts<'_> {
    /// Whether a record is the one that is made of these. It takes no memory.
    pub fn is_record(&self, object: &Record) -> bool
        requires { HasRectsWithin self.now.cell.now.body }
        ensures { result ≡ same_record object.now (record_by self.now.cell.now self.now.role self.now.live self.now.parent self.now.kids.now self.now.name.now self.now.description.now) }
    {
        self.is_kind(object)
            && self.is_content(object)
            && self.is_called(object)
            && self.is_place(object)
    }

    /// Whether an object is of this role and live, and has these states, this level and this frame.
    fn is_kind(&self, object: &Record) -> bool
        requires { HasRectsWithin self.now.cell.now.body }
        ensures { result ≡ same_kind object.now (record_by self.now.cell.now self.now.role self.now.live self.now.parent self.now.kids.now self.now.name.now self.now.description.now) }
    {
        let body = &self.cell.body;
        object.role == self.role
            && object.live == self.live
            && object.states == states_of(self.role, body)
            && object.level == level_of(self.role, body)
            && object.frame == frame_of(body)
    }

    /// Whether an object has this value, these characters and these runs.
    fn is_content(&self, object: &Record) -> bool
        ensures { result ≡ same_content object.now (record_by self.now.cell.now self.now.role self.now.live self.now.parent self.now.kids.now self.now.name.now self.now.description.now) }
    {
        let body = &self.cell.body;
        is_value(&object.value, self.role, body)
            && are_chars(&object.text, body)
            && are_runs(&object.runs, body)
    }

    /// Whether an object is called so.
    fn is_called(&self, object: &Record) -> bool
        ensures { result ≡ same_words object.now (record_by self.now.cell.now self.now.role self.now.live self.now.parent self.now.kids.now self.now.name.now self.now.description.now) }
    {
        object.name.is(self.name.as_str()) && object.description.is(self.description.as_str())
    }

    /// Whether an object has this id, hangs on the same one, and has the same objects hanging on it.
    fn is_place(&self, object: &Record) -> bool
        ensures { result ≡ same_place object.now (record_by self.now.cell.now self.now.role self.now.live self.now.parent self.now.kids.now self.now.name.now self.now.description.now) }
    {
        object.id == self.cell.id
            && object.parent == self.parent
            && object.kids.as_slice() == self.kids
    }

    /// The record. It copies all that is borrowed.
    pub fn make(&self, alloc: Global) -> Result<Record, NoMemory>
        requires { HasRectsWithin self.now.cell.now.body }
        ensures { IfOk result (λ r. r ≡ record_by self.now.cell.now self.now.role self.now.live self.now.parent self.now.kids.now self.now.name.now self.now.description.now) }
    {
        let below = Ids::from_vec(Vec::from_slice(alloc, self.kids)?);
        let called = Called {
            name: self.name.copy(alloc)?,
            description: self.description.copy(alloc)?,
        };
        record_called(
            alloc,
            self.cell,
            self.role,
            self.live,
            self.parent,
            below,
            called,
        )
    }
}

/// Whether a value is that of a node of a role.
fn is_value(value: &Option<Text>, role: Role, node: &Body) -> bool
    ensures { result ≡ option_eq bytes_eq value.now (value_by role node.now) }
{
    match node {
        Body::Element { tag, attrs, .. } => {
            is_text(value, ax_states::value_of(role, tag.as_str(), attrs))
        }
        Body::Words { .. } => value.is_none(),
    }
}

/// Whether characters are those of a node.
fn are_chars(text: &Option<Text>, node: &Body) -> bool
    ensures { result ≡ option_eq bytes_eq text.now (chars_of node.now) }
{
    match node {
        Body::Element { .. } => text.is_none(),
        Body::Words { chars, .. } => is_text(text, Some(chars)),
    }
}

/// Whether two texts are the same, where there are any.
fn is_text(text: &Option<Text>, other: Option<&Text>) -> bool
    ensures { result ≡ option_eq bytes_eq text.now (option_copied other.entry) }
{
    match text {
        None => other.is_none(),
        Some(text) => match other {
            None => false,
            Some(other) => text.is(other.as_str()),
        },
    }
}

/// Whether runs are those of a node.
fn are_runs(runs: &Runs, node: &Body) -> bool
    ensures { result ≡ pointwise run_tests.ghosts.eq runs.now (runs_of node.now) }
{
    match node {
        Body::Element { .. } => runs.as_slice().is_empty(),
        Body::Words { runs: others, .. } => runs.as_slice() == others.as_slice(),
    }
}
