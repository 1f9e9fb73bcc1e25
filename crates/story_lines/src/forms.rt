//! The forms of a line.
ghost use Rattle.std.specs.Prelude.{◌≡◌, IfOk, option_map};
ghost use Rattle.serde_json.specs.View.{view};
ghost use Rattle.story_lines.specs.Forms.{start_of, flush_of, until_of, ask_of, again_of, hear_of, await_of, notices_of, turns_of, form_of};
ghost use Rattle.story_lines.specs.declared.reading.Line.TheVariants.{Change};
ghost use Rattle.story_lines.specs.Kinds.{form_by};
ghost use Rattle.story_lines.specs.Values.{is_word, moment_by};

use crate::edits::{
    focus_of, frame_of, insert_of, move_of, remove_of, runs_of, set_of, text_of, unset_of,
};
use crate::keys::has_only;
use crate::kinds::{Kind, kind_of};
use crate::reading::Line;
use crate::requests::request_by;
use crate::values::{has_true, integer_at, text_at};
use ax_base::{Moment, NoMemory, Text};
use ax_dom::Edit;
use serde_json::Value;
use std::alloc::Global;

/// The greatest number of a moment.
const MAX_MOMENT: u32 = 1_073_741_823;

#[tactic(auto, unfolding(crate::specs::Forms::start_of))]
fn start_of(value: &Value) -> Option<Line>
    ensures { result ≡ start_of (view value.now) }
{
    if !has_only(value, &["start"]) {
        return None;
    }
    integer_at(value, "start", 1, 1)?;
    Some(Line::Start)
}

/// Whether a value has one key, at which `true` stands.
fn is_word(value: &Value, word: &str) -> bool
    ensures { result ≡ is_word word.now (view value.now) }
{
    has_only(value, &[word]) && has_true(value, word)
}

/// The moment at a value's one key.
fn moment_by(value: &Value, word: &str) -> Option<Moment>
    ensures { result ≡ moment_by word.now (view value.now) }
{
    if !has_only(value, &[word]) {
        return None;
    }
    Some(Moment(integer_at(value, word, 0, MAX_MOMENT)?))
}

#[tactic(auto, unfolding(crate::specs::Forms::flush_of))]
fn flush_of(value: &Value) -> Option<Line>
    ensures { result ≡ flush_of (view value.now) }
{
    if is_word(value, "flush") {
        Some(Line::Flush)
    } else {
        None
    }
}

#[tactic(auto, unfolding(crate::specs::Forms::until_of))]
fn until_of(value: &Value) -> Option<Line>
    ensures { result ≡ until_of (view value.now) }
{
    Some(Line::Until(moment_by(value, "until")?))
}

#[tactic(auto, unfolding(crate::specs::Forms::ask_of))]
fn ask_of(alloc: Global, value: &Value) -> Result<Option<Line>, NoMemory>
    ensures { IfOk result (λ line. line ≡ ask_of (view value.now)) }
{
    match request_by(alloc, value, "ask")? {
        None => Ok(None),
        Some(request) => Ok(Some(Line::Ask(request))),
    }
}

#[tactic(auto, unfolding(crate::specs::Forms::again_of))]
fn again_of(alloc: Global, value: &Value) -> Result<Option<Line>, NoMemory>
    ensures { IfOk result (λ line. line ≡ again_of (view value.now)) }
{
    match request_by(alloc, value, "again")? {
        None => Ok(None),
        Some(request) => Ok(Some(Line::Again(request))),
    }
}

#[tactic(auto, unfolding(crate::specs::Forms::hear_of))]
fn hear_of(value: &Value) -> Option<Line>
    ensures { result ≡ hear_of (view value.now) }
{
    if is_word(value, "hear") {
        Some(Line::Hear)
    } else {
        None
    }
}

#[tactic(auto, unfolding(crate::specs::Forms::await_of))]
fn await_of(value: &Value) -> Option<Line>
    ensures { result ≡ await_of (view value.now) }
{
    Some(Line::Await(moment_by(value, "await")?))
}

#[tactic(auto, unfolding(crate::specs::Forms::notices_of))]
fn notices_of(value: &Value) -> Option<Line>
    ensures { result ≡ notices_of (view value.now) }
{
    if is_word(value, "notices") {
        Some(Line::Notices)
    } else {
        None
    }
}

#[tactic(auto, unfolding(crate::specs::Forms::turns_of))]
fn turns_of(alloc: Global, value: &Value) -> Result<Option<Line>, NoMemory>
    ensures { IfOk result (λ line. line ≡ turns_of (view value.now)) }
{
    if !has_only(value, &["turns"]) {
        return Ok(None);
    }
    let Some(turns) = text_at(value, "turns") else {
        return Ok(None);
    };
    Ok(Some(Line::Turns(Text::from_str(alloc, turns)?)))
}

/// The line that an edit is.
fn changed(edit: Option<Edit>) -> Option<Line>
    ensures { result ≡ option_map Change edit }
{
    match edit {
        Some(edit) => Some(Line::Change(edit)),
        None => None,
    }
}

/// What a value of a kind says as a line.
fn form_by(alloc: Global, kind: Kind, value: &Value) -> Result<Option<Line>, NoMemory>
    ensures { IfOk result (λ line. line ≡ form_by kind (view value.now)) }
{
    match kind {
        Kind::Insert => Ok(changed(insert_of(alloc, value)?)),
        Kind::Remove => Ok(changed(remove_of(value))),
        Kind::Move => Ok(changed(move_of(value))),
        Kind::Set => Ok(changed(set_of(alloc, value)?)),
        Kind::Unset => Ok(changed(unset_of(alloc, value)?)),
        Kind::Chars => Ok(changed(text_of(alloc, value)?)),
        Kind::SetRuns => Ok(changed(runs_of(alloc, value)?)),
        Kind::Frame => Ok(changed(frame_of(value))),
        Kind::Focus => Ok(changed(focus_of(value))),
        Kind::Start => Ok(start_of(value)),
        Kind::Flush => Ok(flush_of(value)),
        Kind::Until => Ok(until_of(value)),
        Kind::Ask => ask_of(alloc, value),
        Kind::Again => again_of(alloc, value),
        Kind::Hear => Ok(hear_of(value)),
        Kind::Await => Ok(await_of(value)),
        Kind::Notices => Ok(notices_of(value)),
        Kind::Turns => turns_of(alloc, value),
    }
}

/// What a value says as a line. Its own key tells its kind, so that one form is tried and no other.
#[tactic(auto, using(crate::proofs::OwnKeys::form_is))]
pub(crate) fn form_of(alloc: Global, value: &Value) -> Result<Option<Line>, NoMemory>
    ensures { IfOk result (λ line. line ≡ form_of (view value.now)) }
{
    match kind_of(value) {
        Some(kind) => form_by(alloc, kind, value),
        None => Ok(None),
    }
}
