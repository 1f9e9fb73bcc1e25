//! Why an edit is refused: one test for each cause.
ghost use Rattle.std.specs.Prelude.{◌≡◌, ◌+◌, nat_eq, nat_lt, false};
ghost use Rattle.std.specs.Option.{option_map_or};
ghost use Rattle.ax_base.specs.Document.{has, body, depth, is_text};
ghost use Rattle.ax_base.specs.Runs.{go_on, may_have_runs};
ghost use Rattle.ax_dom.specs.Refusals.{is_taken, is_place, lacks_node, reuses_id, lacks_place, wants_element, wants_text, goes_too_deep, is_one_too_many, is_too_long, is_long_value, has_long_value, is_long_text, breaks_runs, length_of, may_focus, goes_into_itself, removes_root, edit_cause};

use super::Dom;
use crate::cause::EditCause;
use crate::edit::Edit;
use ax_base::{Attrs, Body, MAX_DEPTH, MAX_INSERTS, MAX_TEXT_CHARACTERS, ObjId, Run, Text};

/// The most bytes of an attribute's value.
const MAX_VALUE_BYTES: usize = 4096;

impl Dom {
    /// Why an edit is refused: the first cause that holds, or `None` exactly where none does. It is never want of memory.
    pub fn cause_of(&self, e: &Edit) -> Option<EditCause>
        ensures { result ≡ edit_cause self.now e.now }
    {
        if self.lacks_node(e) {
            Some(EditCause::NoNode)
        } else if self.reuses_id(e) {
            Some(EditCause::UsedId)
        } else if self.lacks_place(e) {
            Some(EditCause::BadPlace)
        } else if self.wants_element(e) {
            Some(EditCause::NotElement)
        } else if self.wants_text(e) {
            Some(EditCause::NotText)
        } else if self.goes_into_itself(e) {
            Some(EditCause::IntoItself)
        } else if removes_root(e) {
            Some(EditCause::RootFixed)
        } else if self.goes_too_deep(e) {
            Some(EditCause::TooDeep)
        } else if self.is_one_too_many(e) {
            Some(EditCause::TooMany)
        } else if self.breaks_runs(e) {
            Some(EditCause::BadRuns)
        } else if is_too_long(e) {
            Some(EditCause::TooLong)
        } else {
            None
        }
    }

    /// Whether the document lacks a node that the edit names.
    fn lacks_node(&self, e: &Edit) -> bool
        ensures { result ≡ lacks_node self.now e.now }
    {
        match e {
            Edit::InsertElement { into, .. } | Edit::InsertText { into, .. } => !self.has(*into),
            Edit::Chars { id, .. }
            | Edit::Set { id, .. }
            | Edit::Unset { id, .. }
            | Edit::SetRuns { id, .. }
            | Edit::Frame { id, .. } => !self.has(*id),
            Edit::Remove(id) => !self.has(*id),
            Edit::Move { id, into, .. } => !self.has(*id) || !self.has(*into),
            Edit::Focus(id) => !self.may_focus(id),
        }
    }

    /// Whether an insert's id is the root's or was inserted before.
    fn reuses_id(&self, e: &Edit) -> bool
        ensures { result ≡ reuses_id self.now e.now }
    {
        match e {
            Edit::InsertElement { id, .. } | Edit::InsertText { id, .. } => self.is_taken(*id),
            _ => false,
        }
    }

    /// Whether a child to stand before is given, and is no child of the parent.
    fn lacks_place(&self, e: &Edit) -> bool
        ensures { result ≡ lacks_place self.now e.now }
    {
        match e {
            Edit::InsertElement { into, before, .. } | Edit::InsertText { into, before, .. } =>
                !self.is_place(*into, before),
            Edit::Move { id, into, before } => !self.is_place(*into, before)
                || is_same(before, *id),
            _ => false,
        }
    }

    /// Whether an element is wanted, and the node is a text.
    fn wants_element(&self, e: &Edit) -> bool
        ensures { result ≡ wants_element self.now e.now }
    {
        match e {
            Edit::InsertElement { into, .. }
            | Edit::InsertText { into, .. }
            | Edit::Move { into, .. } => self.is_text(*into),
            Edit::Set { id, .. } | Edit::Unset { id, .. } | Edit::Frame { id, .. } => {
                self.is_text(*id)
            }
            _ => false,
        }
    }

    /// Whether a text is wanted, and the node is an element.
    fn wants_text(&self, e: &Edit) -> bool
        ensures { result ≡ wants_text self.now e.now }
    {
        match e {
            Edit::Chars { id, .. } | Edit::SetRuns { id, .. } => !self.is_text(*id),
            _ => false,
        }
    }

    /// Whether a node would move into itself or below itself.
    fn goes_into_itself(&self, e: &Edit) -> bool
        ensures { result ≡ goes_into_itself self.now e.now }
    {
        match e {
            Edit::Move { id, into, .. } => self.is_above(*id, *into),
            _ => false,
        }
    }

    /// Whether some node would have more than 64 ancestors.
    fn goes_too_deep(&self, e: &Edit) -> bool
        ensures { result ≡ goes_too_deep self.now e.now }
    {
        match e {
            Edit::InsertElement { into, .. } | Edit::InsertText { into, .. } => {
                self.is_at_max_depth(*into)
            }
            Edit::Move { id, into, .. } => self.exceeds_depth(*id, *into),
            _ => false,
        }
    }

    /// Whether as many nodes were inserted as may ever be.
    fn is_one_too_many(&self, e: &Edit) -> bool
        ensures { result ≡ is_one_too_many self.now e.now }
    {
        match e {
            Edit::InsertElement { .. } | Edit::InsertText { .. } => self.used.len() >= MAX_INSERTS,
            _ => false,
        }
    }

    /// Whether the runs are not those that the text may have.
    fn breaks_runs(&self, e: &Edit) -> bool
        ensures { result ≡ breaks_runs self.now e.now }
    {
        match e {
            Edit::SetRuns { id, runs } => !may_have_runs(self.length_of(*id), runs.as_slice()),
            _ => false,
        }
    }

    /// How many characters a text has: none of an element and of an unknown id.
    fn length_of(&self, id: ObjId) -> usize
        ensures { result ≡ length_of (body self.now id) }
    {
        match self.entries.get(id) {
            Some(entry) => length_of(&entry.cell.body),
            None => 0,
        }
    }

    /// Whether none is to be focused, or a node that is there.
    fn may_focus(&self, id: &Option<ObjId>) -> bool
        ensures { result ≡ may_focus self.now id.now }
    {
        match id {
            Some(n) => self.has(*n),
            None => true,
        }
    }

    /// Whether an id is the root's or was ever inserted.
    fn is_taken(&self, id: ObjId) -> bool
        ensures { result ≡ is_taken self.now id }
    {
        id == ObjId::ROOT || self.used.has(id)
    }

    /// Whether no child to stand before is given, or it is a child of the parent.
    fn is_place(&self, into: ObjId, before: &Option<ObjId>) -> bool
        ensures { result ≡ is_place self.now into before.now }
    {
        match before {
            None => true,
            Some(b) => is_same(&self.parent_of(*b), into),
        }
    }

    /// Whether a node is a text.
    fn is_text(&self, id: ObjId) -> bool
        ensures { result ≡ is_text (body self.now id) }
    {
        match self.entries.get(id) {
            Some(entry) => is_text(&entry.cell.body),
            None => true,
        }
    }

    /// Whether a child of a node would have more than 64 ancestors.
    fn is_at_max_depth(&self, id: ObjId) -> bool
        ensures { result ≡ nat_lt MAX_DEPTH (depth self.now id + 1) }
    {
        u32::from(self.depth_of(id)) + 1 > MAX_DEPTH
    }

    /// How many ancestors a node has: none of an unknown id.
    pub(super) fn depth_of(&self, id: ObjId) -> u8
        ensures { result ≡ depth self.now id }
    {
        match self.entries.get(id) {
            Some(entry) => entry.cell.depth,
            None => 0,
        }
    }
}

/// Whether it is this id.
fn is_same(o: &Option<ObjId>, id: ObjId) -> bool
    ensures { result ≡ option_map_or (nat_eq id) o.now false }
{
    match o {
        None => false,
        Some(n) => id.number() == n.number(),
    }
}

/// Whether the root is to be removed.
fn removes_root(e: &Edit) -> bool
    ensures { result ≡ removes_root e.now }
{
    match e {
        Edit::Remove(id) => *id == ObjId::ROOT,
        _ => false,
    }
}

/// Whether it is a text.
fn is_text(body: &Body) -> bool
    ensures { result ≡ is_text body.now }
{
    match body {
        Body::Words { .. } => true,
        Body::Element { .. } => false,
    }
}

/// Whether an attribute value or a text is too long.
fn is_too_long(e: &Edit) -> bool
    ensures { result ≡ is_too_long e.now }
{
    match e {
        Edit::InsertElement { attrs, .. } => has_long_value(attrs),
        Edit::InsertText { chars, .. } | Edit::Chars { chars, .. } => is_long_text(chars),
        Edit::Set { value, .. } => is_long_value(value),
        _ => false,
    }
}

/// Whether some attribute has a value of more than 4,096 bytes.
fn has_long_value(attrs: &Attrs) -> bool
    ensures { result ≡ has_long_value attrs.now }
{
    attrs
        .as_slice()
        .iter()
        .any(|a| a.value.as_str().len() > MAX_VALUE_BYTES)
}

/// Whether an attribute value has more than 4,096 bytes.
fn is_long_value(value: &Text) -> bool
    ensures { result ≡ is_long_value value.now }
{
    value.as_str().len() > MAX_VALUE_BYTES
}

/// Whether a text has more than 65,536 characters.
fn is_long_text(chars: &Text) -> bool
    ensures { result ≡ is_long_text chars.now }
{
    is_long(chars.as_str())
}

/// Whether these are more than 65,536 characters. They are counted only where there are more bytes than that.
fn is_long(text: &str) -> bool
    ensures { result ≡ is_long_text text.now }
{
    if text.len() <= MAX_TEXT_CHARACTERS {
        return false;
    }
    text.chars().count() > MAX_TEXT_CHARACTERS
}

/// How many characters a text has.
fn length_of(body: &Body) -> usize
    ensures { result ≡ length_of body.now }
{
    match body {
        Body::Words { chars, .. } => chars.count(),
        Body::Element { .. } => 0,
    }
}

/// Whether a text of so many characters may have these runs.
fn may_have_runs(end: usize, runs: &[Run]) -> bool
    ensures { result ≡ may_have_runs end runs.now }
{
    runs.is_empty() || go_on(end, runs)
}

/// Whether runs go from the start of a text to its end.
fn go_on(end: usize, runs: &[Run]) -> bool
    ensures { result ≡ go_on end 0 0 runs.now }
{
    let mut from = 0;
    let mut line = 0;
    for run in runs {
        if !(run.first == from && run.first < run.past && line <= run.line) {
            return false;
        }
        from = run.past;
        line = run.line;
    }
    from as usize == end
}
