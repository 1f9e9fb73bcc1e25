//! Which keys an object has.
ghost use Rattle.std.specs.Prelude.{◌≡◌, map, string_bytes, bytes_eq};
ghost use Rattle.std.specs.List.{list_any, list_all};
ghost use Rattle.std.specs.Map.{keys_of};
ghost use Rattle.serde_json.specs.View.{view, members_view};
ghost use Rattle.story_lines.specs.Values.{only_keys, has_only};

use serde_json::{Map, Value};

fn is_among(key: &str, allowed: &[&str]) -> bool
    ensures { result ≡ list_any (λ a. bytes_eq a.now key.now) allowed.now }
{
    allowed.iter().any(|a| *a == key)
}

fn all_among(members: &Map<String, Value>, allowed: &[&str]) -> bool
    ensures { result ≡ list_all (λ k. list_any (λ a. bytes_eq a.now (string_bytes k)) allowed.now) (keys_of members.now.entries) }
{
    members.keys().all(|key| is_among(key.as_str(), allowed))
}

fn only_keys(members: &Map<String, Value>, allowed: &[&str]) -> bool
    ensures { result ≡ only_keys (map (λ a. a.now) allowed.now) (members_view members.now.entries) }
{
    all_among(members, allowed)
}

/// Whether a value is an object with no other keys than these.
pub(crate) fn has_only(value: &Value, allowed: &[&str]) -> bool
    ensures { result ≡ has_only (map (λ a. a.now) allowed.now) (view value.now) }
{
    match value.as_object() {
        Some(members) => only_keys(members, allowed),
        None => false,
    }
}
