//! The forms of the edits.
ghost use Rattle.std.specs.Prelude.{◌≡◌, IfOk};
ghost use Rattle.serde_json.specs.View.{view};
ghost use Rattle.story_lines.specs.Forms.{insert_element_of, insert_text_of, remove_of, move_of, set_of, unset_of, text_of, runs_of, frame_of, focus_of};
ghost use Rattle.story_lines.specs.Values.{◌or_else◌};

use crate::attributes::maybe_attributes;
use crate::keys::has_only;
use crate::runs::{rect_at, runs_at};
use crate::values::{id_at, id_or_none_at, maybe_id_at, name_at, tag_at, text_at};
use ax_base::{NoMemory, Text};
use ax_dom::Edit;
use serde_json::Value;
use std::alloc::Global;

/// Insert an element.
#[tactic(auto, unfolding(crate::specs::Forms::insert_element_of))]
fn insert_element_of(alloc: Global, value: &Value) -> Result<Option<Edit>, NoMemory>
    ensures { IfOk result (λ edit. edit ≡ insert_element_of (view value.now)) }
{
    if !has_only(value, &["insert", "into", "before", "tag", "attrs"]) {
        return Ok(None);
    }
    let Some(id) = id_at(value, "insert") else {
        return Ok(None);
    };
    let Some(into) = id_at(value, "into") else {
        return Ok(None);
    };
    let Some(before) = maybe_id_at(value, "before") else {
        return Ok(None);
    };
    let Some(tag) = tag_at(value) else {
        return Ok(None);
    };
    let Some(attrs) = maybe_attributes(alloc, value)? else {
        return Ok(None);
    };
    let tag = Text::from_str(alloc, tag)?;
    Ok(Some(Edit::InsertElement {
        id,
        into,
        before,
        tag,
        attrs,
    }))
}

/// Insert a text.
#[tactic(auto, unfolding(crate::specs::Forms::insert_text_of))]
fn insert_text_of(alloc: Global, value: &Value) -> Result<Option<Edit>, NoMemory>
    ensures { IfOk result (λ edit. edit ≡ insert_text_of (view value.now)) }
{
    if !has_only(value, &["insert", "into", "before", "text"]) {
        return Ok(None);
    }
    let Some(id) = id_at(value, "insert") else {
        return Ok(None);
    };
    let Some(into) = id_at(value, "into") else {
        return Ok(None);
    };
    let Some(before) = maybe_id_at(value, "before") else {
        return Ok(None);
    };
    let Some(text) = text_at(value, "text") else {
        return Ok(None);
    };
    let chars = Text::from_str(alloc, text)?;
    Ok(Some(Edit::InsertText {
        id,
        into,
        before,
        chars,
    }))
}

#[tactic(auto, unfolding(crate::specs::Forms::remove_of))]
pub(crate) fn remove_of(value: &Value) -> Option<Edit>
    ensures { result ≡ remove_of (view value.now) }
{
    if !has_only(value, &["remove"]) {
        return None;
    }
    Some(Edit::Remove(id_at(value, "remove")?))
}

#[tactic(auto, unfolding(crate::specs::Forms::move_of))]
pub(crate) fn move_of(value: &Value) -> Option<Edit>
    ensures { result ≡ move_of (view value.now) }
{
    if !has_only(value, &["move", "into", "before"]) {
        return None;
    }
    let id = id_at(value, "move")?;
    let into = id_at(value, "into")?;
    let before = maybe_id_at(value, "before")?;
    Some(Edit::Move { id, into, before })
}

/// Set an attribute.
#[tactic(auto, unfolding(crate::specs::Forms::set_of))]
pub(crate) fn set_of(alloc: Global, value: &Value) -> Result<Option<Edit>, NoMemory>
    ensures { IfOk result (λ edit. edit ≡ set_of (view value.now)) }
{
    if !has_only(value, &["set", "name", "value"]) {
        return Ok(None);
    }
    let Some(id) = id_at(value, "set") else {
        return Ok(None);
    };
    let Some(name) = name_at(value) else {
        return Ok(None);
    };
    let Some(text) = text_at(value, "value") else {
        return Ok(None);
    };
    let name = Text::from_str(alloc, name)?;
    let value = Text::from_str(alloc, text)?;
    Ok(Some(Edit::Set { id, name, value }))
}

/// Take an attribute away.
#[tactic(auto, unfolding(crate::specs::Forms::unset_of))]
pub(crate) fn unset_of(alloc: Global, value: &Value) -> Result<Option<Edit>, NoMemory>
    ensures { IfOk result (λ edit. edit ≡ unset_of (view value.now)) }
{
    if !has_only(value, &["unset", "name"]) {
        return Ok(None);
    }
    let Some(id) = id_at(value, "unset") else {
        return Ok(None);
    };
    let Some(name) = name_at(value) else {
        return Ok(None);
    };
    let name = Text::from_str(alloc, name)?;
    Ok(Some(Edit::Unset { id, name }))
}

/// Change a text.
#[tactic(auto, unfolding(crate::specs::Forms::text_of))]
pub(crate) fn text_of(alloc: Global, value: &Value) -> Result<Option<Edit>, NoMemory>
    ensures { IfOk result (λ edit. edit ≡ text_of (view value.now)) }
{
    if !has_only(value, &["text", "to"]) {
        return Ok(None);
    }
    let Some(id) = id_at(value, "text") else {
        return Ok(None);
    };
    let Some(text) = text_at(value, "to") else {
        return Ok(None);
    };
    let chars = Text::from_str(alloc, text)?;
    Ok(Some(Edit::Chars { id, chars }))
}

/// Set runs.
#[tactic(auto, unfolding(crate::specs::Forms::runs_of))]
pub(crate) fn runs_of(alloc: Global, value: &Value) -> Result<Option<Edit>, NoMemory>
    ensures { IfOk result (λ edit. edit ≡ runs_of (view value.now)) }
{
    if !has_only(value, &["runs", "list"]) {
        return Ok(None);
    }
    let Some(id) = id_at(value, "runs") else {
        return Ok(None);
    };
    let Some(runs) = runs_at(alloc, value)? else {
        return Ok(None);
    };
    Ok(Some(Edit::SetRuns { id, runs }))
}

/// Set a frame.
#[tactic(auto, unfolding(crate::specs::Forms::frame_of))]
pub(crate) fn frame_of(value: &Value) -> Option<Edit>
    ensures { result ≡ frame_of (view value.now) }
{
    if !has_only(value, &["frame", "rect"]) {
        return None;
    }
    let id = id_at(value, "frame")?;
    let rect = rect_at(value)?;
    Some(Edit::Frame { id, rect })
}

#[tactic(auto, unfolding(crate::specs::Forms::focus_of))]
pub(crate) fn focus_of(value: &Value) -> Option<Edit>
    ensures { result ≡ focus_of (view value.now) }
{
    if !has_only(value, &["focus"]) {
        return None;
    }
    Some(Edit::Focus(id_or_none_at(value, "focus")?))
}

/// Insert an element or a text.
pub(crate) fn insert_of(alloc: Global, value: &Value) -> Result<Option<Edit>, NoMemory>
    ensures { IfOk result (λ edit. edit ≡ (insert_element_of (view value.now) or_else insert_text_of (view value.now))) }
{
    if let Some(edit) = insert_element_of(alloc, value)? {
        return Ok(Some(edit));
    }
    insert_text_of(alloc, value)
}
