//! Whole numbers within bounds, tags and names.
ghost use Rattle.std.specs.Prelude.{◌≡◌, option_map};
ghost use Rattle.serde_json.specs.View.{view};
ghost use Rattle.serde_json.specs.Find.{get};
ghost use Rattle.story_lines.specs.Values.{integer, integer_at, id_at, maybe_id, id_or_none_at, signed_at, begins_with_letter, is_tag_byte, is_name_byte, is_tag, is_attribute_name, has_true, text_at, tag_at, name_at};
ghost use Rattle.std.specs.List.{list_all};

use ax_base::ObjId;
use serde_json::Value;

/// The greatest id of a node.
pub(crate) const MAX_ID: u32 = 2_147_483_647;

const MAX_TAG: usize = 32;

const MAX_NAME: usize = 64;

/// A value that is a whole number within bounds.
pub(crate) fn integer(value: &Value, low: u32, high: u32) -> Option<u32>
    ensures { result ≡ integer low high (view value.now) }
{
    let number = u32::try_from(value.as_i64()?).ok()?;
    if low <= number && number <= high {
        Some(number)
    } else {
        None
    }
}

/// The whole number at a key.
pub(crate) fn integer_at(value: &Value, key: &str, low: u32, high: u32) -> Option<u32>
    ensures { result ≡ integer_at key.now low high (view value.now) }
{
    integer(value.get(key)?, low, high)
}

/// The id of a node at a key.
pub(crate) fn id_at(value: &Value, key: &str) -> Option<ObjId>
    ensures { result ≡ id_at key.now (view value.now) }
{
    Some(ObjId(integer_at(value, key, 1, MAX_ID)?))
}

/// The id at a key that may be missing.
pub(crate) fn maybe_id_at(value: &Value, key: &str) -> Option<Option<ObjId>>
    ensures { result ≡ maybe_id (get key.now (view value.now)) }
{
    match value.get(key) {
        None => Some(None),
        Some(id) => Some(Some(ObjId(integer(id, 1, MAX_ID)?))),
    }
}

/// The id at a key, or none where 0 stands there.
pub(crate) fn id_or_none_at(value: &Value, key: &str) -> Option<Option<ObjId>>
    ensures { result ≡ id_or_none_at key.now (view value.now) }
{
    let number = integer_at(value, key, 0, MAX_ID)?;
    if number == 0 {
        Some(None)
    } else {
        Some(Some(ObjId(number)))
    }
}

/// The whole number of 32 bits at a key.
pub(crate) fn signed_at(value: &Value, key: &str) -> Option<i32>
    ensures { result ≡ signed_at key.now (view value.now) }
{
    i32::try_from(value.get(key)?.as_i64()?).ok()
}

/// Whether `true` stands at a key.
pub(crate) fn has_true(value: &Value, key: &str) -> bool
    ensures { result ≡ has_true key.now (view value.now) }
{
    match value.get(key) {
        Some(word) => word.as_bool().unwrap_or(false),
        None => false,
    }
}

/// The text at a key.
pub(crate) fn text_at<'v>(value: &'v Value, key: &str) -> Option<&'v str>
    ensures { option_map (λ t. t.now) result ≡ text_at key.now (view value.now) }
{
    value.get(key)?.as_str()
}

fn begins_with_letter(text: &str) -> bool
    ensures { result ≡ begins_with_letter text.now }
{
    match text.as_bytes().first() {
        Some(byte) => byte.is_ascii_lowercase(),
        None => false,
    }
}

fn is_tag_byte(byte: u8) -> bool
    ensures { result ≡ is_tag_byte byte }
{
    byte.is_ascii_lowercase() || byte.is_ascii_digit() || byte == b'-'
}

fn is_name_byte(byte: u8) -> bool
    ensures { result ≡ is_name_byte byte }
{
    is_tag_byte(byte) || byte == b'_' || byte == b':' || byte == b'.'
}

fn all_tag_bytes(bytes: &[u8]) -> bool
    ensures { result ≡ list_all is_tag_byte bytes.now }
{
    bytes.iter().all(|b| is_tag_byte(*b))
}

fn all_name_bytes(bytes: &[u8]) -> bool
    ensures { result ≡ list_all is_name_byte bytes.now }
{
    bytes.iter().all(|b| is_name_byte(*b))
}

/// Whether a text is the tag of an element.
fn is_tag(text: &str) -> bool
    ensures { result ≡ is_tag text.now }
{
    begins_with_letter(text) && text.len() <= MAX_TAG && all_tag_bytes(text.as_bytes())
}

/// Whether a text is the name of an attribute.
pub(crate) fn is_attribute_name(text: &str) -> bool
    ensures { result ≡ is_attribute_name text.now }
{
    begins_with_letter(text) && text.len() <= MAX_NAME && all_name_bytes(text.as_bytes())
}

/// The tag at the key `tag`.
pub(crate) fn tag_at(value: &Value) -> Option<&str>
    ensures { option_map (λ t. t.now) result ≡ tag_at (view value.now) }
{
    let tag = text_at(value, "tag")?;
    if is_tag(tag) { Some(tag) } else { None }
}

/// The attribute's name at the key `name`.
pub(crate) fn name_at(value: &Value) -> Option<&str>
    ensures { option_map (λ t. t.now) result ≡ name_at (view value.now) }
{
    let name = text_at(value, "name")?;
    if is_attribute_name(name) {
        Some(name)
    } else {
        None
    }
}
