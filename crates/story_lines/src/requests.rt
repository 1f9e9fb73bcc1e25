//! The forms of a request.
ghost use Rattle.std.specs.Prelude.{◌≡◌, codes, IfOk};
ghost use Rattle.serde_json.specs.View.{view};
ghost use Rattle.serde_json.specs.Find.{get};
ghost use Rattle.story_lines.specs.Requests.{alone, alone_of, about, about_of, place_or_first, children_of, two_markers, two_markers_of, one_marker, one_marker_of, search_of, hit_of, asked_by, request_of, request_by};

use crate::keys::has_only;
use crate::markers::marker_at;
use crate::searches::search_at;
use crate::values::{id_at, integer, signed_at, text_at};
use ax_ask::{Marker, Request};
use ax_base::{NoMemory, ObjId};
use serde_json::Value;
use std::alloc::Global;

/// The greatest place among children from which they are asked for.
const MAX_PLACE: u32 = 65_536;

/// What a word asks alone.
fn alone(word: &str) -> Option<Request>
    ensures { result ≡ alone word.now }
{
    match word {
        "root" => Some(Request::Root),
        "focus" => Some(Request::Focus),
        _ => None,
    }
}

/// A request by a word alone.
#[tactic(auto, unfolding(crate::specs::Requests::alone_of))]
fn alone_of(word: &str, value: &Value) -> Option<Request>
    ensures { result ≡ alone_of word.now (view value.now) }
{
    if !has_only(value, &["q"]) {
        return None;
    }
    alone(word)
}

/// What a word asks of an object.
fn about(word: &str, id: ObjId) -> Option<Request>
    ensures { result ≡ about word.now id }
{
    match word {
        "role" => Some(Request::Role(id)),
        "name" => Some(Request::Name(id)),
        "description" => Some(Request::Description(id)),
        "value" => Some(Request::Value(id)),
        "states" => Some(Request::States(id)),
        "level" => Some(Request::Level(id)),
        "live" => Some(Request::Live(id)),
        "frame" => Some(Request::Frame(id)),
        "parent" => Some(Request::Parent(id)),
        _ => None,
    }
}

/// A request about an object.
#[tactic(auto, unfolding(crate::specs::Requests::about_of))]
fn about_of(word: &str, value: &Value) -> Option<Request>
    ensures { result ≡ about_of word.now (view value.now) }
{
    if !has_only(value, &["q", "id"]) {
        return None;
    }
    about(word, id_at(value, "id")?)
}

/// The place at the key `from`, which is the first where it is missing.
fn place_at(value: &Value) -> Option<u32>
    ensures { result ≡ place_or_first (get (codes "from") (view value.now)) }
{
    match value.get("from") {
        None => Some(0),
        Some(place) => integer(place, 0, MAX_PLACE),
    }
}

#[tactic(auto, unfolding(crate::specs::Requests::children_of))]
fn children_of(word: &str, value: &Value) -> Option<Request>
    ensures { result ≡ children_of word.now (view value.now) }
{
    if word != "children" || !has_only(value, &["q", "id", "from"]) {
        return None;
    }
    let id = id_at(value, "id")?;
    let from = place_at(value)?;
    Some(Request::Children(id, from))
}

/// What a word asks of two markers.
fn two_markers(word: &str, a: Marker, b: Marker) -> Option<Request>
    ensures { result ≡ two_markers word.now a b }
{
    match word {
        "compare" => Some(Request::Compare(a, b)),
        "text" => Some(Request::TextOf(a, b)),
        "bounds" => Some(Request::BoundsOf(a, b)),
        _ => None,
    }
}

/// A request about two markers.
#[tactic(auto, unfolding(crate::specs::Requests::two_markers_of))]
fn two_markers_of(word: &str, value: &Value) -> Option<Request>
    ensures { result ≡ two_markers_of word.now (view value.now) }
{
    if !has_only(value, &["q", "a", "b"]) {
        return None;
    }
    let a = marker_at(value, "a")?;
    let b = marker_at(value, "b")?;
    two_markers(word, a, b)
}

/// What a word asks of one marker.
fn one_marker(word: &str, at: Marker) -> Option<Request>
    ensures { result ≡ one_marker word.now at }
{
    match word {
        "next_char" => Some(Request::NextChar(at)),
        "prev_char" => Some(Request::PrevChar(at)),
        "next_word" => Some(Request::NextWord(at)),
        "line" => Some(Request::LineAt(at)),
        _ => None,
    }
}

/// A request about one marker.
#[tactic(auto, unfolding(crate::specs::Requests::one_marker_of))]
fn one_marker_of(word: &str, value: &Value) -> Option<Request>
    ensures { result ≡ one_marker_of word.now (view value.now) }
{
    if !has_only(value, &["q", "at"]) {
        return None;
    }
    one_marker(word, marker_at(value, "at")?)
}

#[tactic(auto, unfolding(crate::specs::Requests::search_of))]
fn search_of(alloc: Global, word: &str, value: &Value) -> Result<Option<Request>, NoMemory>
    ensures { IfOk result (λ request. request ≡ search_of word.now (view value.now)) }
{
    if word != "search" || !has_only(value, &["q", "from", "dir", "keys", "text", "limit"]) {
        return Ok(None);
    }
    let Some(search) = search_at(alloc, value)? else {
        return Ok(None);
    };
    Ok(Some(Request::Search(search)))
}

#[tactic(auto, unfolding(crate::specs::Requests::hit_of))]
fn hit_of(word: &str, value: &Value) -> Option<Request>
    ensures { result ≡ hit_of word.now (view value.now) }
{
    if word != "hit" || !has_only(value, &["q", "x", "y"]) {
        return None;
    }
    let x = signed_at(value, "x")?;
    let y = signed_at(value, "y")?;
    Some(Request::Hit(x, y))
}

/// What a word asks by the keys of a value.
#[tactic(auto, unfolding(crate::specs::Requests::asked_by))]
fn asked_by(alloc: Global, word: &str, value: &Value) -> Result<Option<Request>, NoMemory>
    ensures { IfOk result (λ request. request ≡ asked_by word.now (view value.now)) }
{
    if let Some(request) = alone_of(word, value) {
        return Ok(Some(request));
    }
    if let Some(request) = about_of(word, value) {
        return Ok(Some(request));
    }
    if let Some(request) = children_of(word, value) {
        return Ok(Some(request));
    }
    if let Some(request) = two_markers_of(word, value) {
        return Ok(Some(request));
    }
    if let Some(request) = one_marker_of(word, value) {
        return Ok(Some(request));
    }
    if let Some(request) = search_of(alloc, word, value)? {
        return Ok(Some(request));
    }
    Ok(hit_of(word, value))
}

/// The request that a value is.
fn request_of(alloc: Global, value: &Value) -> Result<Option<Request>, NoMemory>
    ensures { IfOk result (λ request. request ≡ request_of (view value.now)) }
{
    match text_at(value, "q") {
        None => Ok(None),
        Some(word) => asked_by(alloc, word, value),
    }
}

/// The request at a value's one key.
pub(crate) fn request_by(
    alloc: Global,
    value: &Value,
    key: &str,
) -> Result<Option<Request>, NoMemory>
    ensures { IfOk result (λ request. request ≡ request_by key.now (view value.now)) }
{
    if !has_only(value, &[key]) {
        return Ok(None);
    }
    match value.get(key) {
        None => Ok(None),
        Some(asked) => request_of(alloc, asked),
    }
}
