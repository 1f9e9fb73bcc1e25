//! What a search looks for.
ghost use Rattle.std.specs.Prelude.{◌≡◌, codes, IfOk};
ghost use Rattle.serde_json.specs.View.{view, items_view};
ghost use Rattle.serde_json.specs.Find.{get};
ghost use Rattle.story_lines.specs.Searches.{search_key, search_key_in, search_keys, search_keys_at, backward_at, maybe_words, limit_at, search_at};

use crate::values::{id_or_none_at, integer_at, text_at};
use ax_ask::{SearchKey, SearchKeys, SearchRequest};
use ax_base::{NoMemory, Text};
use serde_json::Value;
use std::alloc::Global;

/// The most key words of a search.
const MOST_KEYS: usize = 8;

/// The most bytes of its text.
const MOST_BYTES: usize = 4_096;

/// The most objects that it may tell.
const MOST_FOUND: u32 = 100;

/// The kind of objects that a word names.
fn search_key(word: &str) -> Option<SearchKey>
    ensures { result ≡ search_key word.now }
{
    match word {
        "any" => Some(SearchKey::Any),
        "text" => Some(SearchKey::Text),
        "heading" => Some(SearchKey::Heading),
        "link" => Some(SearchKey::Link),
        "button" => Some(SearchKey::Button),
        "checkbox" => Some(SearchKey::Checkbox),
        "radio" => Some(SearchKey::Radio),
        "list" => Some(SearchKey::List),
        "field" => Some(SearchKey::Field),
        "control" => Some(SearchKey::Control),
        "landmark" => Some(SearchKey::Landmark),
        "table" => Some(SearchKey::Table),
        "image" => Some(SearchKey::Image),
        "live" => Some(SearchKey::Live),
        "focusable" => Some(SearchKey::Focusable),
        _ => None,
    }
}

/// The kind that one key word names.
fn search_key_in(value: &Value) -> Option<SearchKey>
    ensures { result ≡ search_key_in (view value.now) }
{
    search_key(value.as_str()?)
}

/// The kinds that key words name, in their order.
fn search_keys(alloc: Global, values: &[Value]) -> Result<Option<SearchKeys>, NoMemory>
    ensures { IfOk result (λ keys. keys ≡ search_keys (items_view values.now)) }
{
    let mut keys = Vec::with_capacity(alloc, values.len())?;
    for value in values {
        let Some(key) = search_key_in(value) else {
            return Ok(None);
        };
        keys.push(key)?;
    }
    Ok(Some(SearchKeys::from_vec(keys)))
}

/// The key words at the key `keys`.
fn search_keys_at(alloc: Global, value: &Value) -> Result<Option<SearchKeys>, NoMemory>
    ensures { IfOk result (λ keys. keys ≡ search_keys_at (view value.now)) }
{
    let Some(list) = value.get("keys") else {
        return Ok(None);
    };
    let Some(values) = list.as_array() else {
        return Ok(None);
    };
    let Some(keys) = search_keys(alloc, values)? else {
        return Ok(None);
    };
    let count = keys.as_slice().len();
    if 1 <= count && count <= MOST_KEYS {
        Ok(Some(keys))
    } else {
        Ok(None)
    }
}

/// Whether the word at the key `dir` says that a search goes backward.
fn backward_at(value: &Value) -> Option<bool>
    ensures { result ≡ backward_at (view value.now) }
{
    match text_at(value, "dir")? {
        "next" => Some(false),
        "prev" => Some(true),
        _ => None,
    }
}

/// The text at the key `text`, which may be missing.
fn maybe_words_at(alloc: Global, value: &Value) -> Result<Option<Option<Text>>, NoMemory>
    ensures { IfOk result (λ words. words ≡ maybe_words (get (codes "text") (view value.now))) }
{
    let Some(words) = value.get("text") else {
        return Ok(Some(None));
    };
    let Some(text) = words.as_str() else {
        return Ok(None);
    };
    if text.len() > MOST_BYTES {
        return Ok(None);
    }
    Ok(Some(Some(Text::from_str(alloc, text)?)))
}

/// The number at the key `limit`.
fn limit_at(value: &Value) -> Option<u8>
    ensures { result ≡ limit_at (view value.now) }
{
    let number = integer_at(value, "limit", 1, MOST_FOUND)?;
    Some(number as u8)
}

/// The search that a value asks for.
pub(crate) fn search_at(alloc: Global, value: &Value) -> Result<Option<SearchRequest>, NoMemory>
    ensures { IfOk result (λ search. search ≡ search_at (view value.now)) }
{
    let Some(origin) = id_or_none_at(value, "from") else {
        return Ok(None);
    };
    let Some(backward) = backward_at(value) else {
        return Ok(None);
    };
    let Some(keys) = search_keys_at(alloc, value)? else {
        return Ok(None);
    };
    let Some(words) = maybe_words_at(alloc, value)? else {
        return Ok(None);
    };
    let Some(limit) = limit_at(value) else {
        return Ok(None);
    };
    Ok(Some(SearchRequest {
        origin,
        backward,
        keys,
        words,
        limit,
    }))
}
