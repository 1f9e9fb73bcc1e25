//! The kinds of a line's forms.
ghost use Rattle.std.specs.Prelude.{◌≡◌};
ghost use Rattle.serde_json.specs.View.{view, members_view};
ghost use Rattle.story_lines.specs.Kinds.{kind_by, kind_among, kind_of};

use serde_json::{Map, Value};

/// The kinds of a line's forms. Each has a key of its own, which no form of another kind may have.
#[derive(Clone, Copy)]
pub enum Kind {
    /// A new element or text.
    Insert,
    Remove,
    Move,
    /// A value of an attribute.
    Set,
    Unset,
    /// Other characters of a text. The own key is `to`.
    Chars,
    SetRuns,
    Frame,
    Focus,
    Start,
    Flush,
    Until,
    Ask,
    Again,
    Hear,
    Await,
    Notices,
    Turns,
}

/// The kind that has this key for its own.
fn kind_by(key: &str) -> Option<Kind>
    ensures { result ≡ kind_by key.now }
{
    match key {
        "insert" => Some(Kind::Insert),
        "remove" => Some(Kind::Remove),
        "move" => Some(Kind::Move),
        "set" => Some(Kind::Set),
        "unset" => Some(Kind::Unset),
        "to" => Some(Kind::Chars),
        "runs" => Some(Kind::SetRuns),
        "frame" => Some(Kind::Frame),
        "focus" => Some(Kind::Focus),
        "start" => Some(Kind::Start),
        "flush" => Some(Kind::Flush),
        "until" => Some(Kind::Until),
        "ask" => Some(Kind::Ask),
        "again" => Some(Kind::Again),
        "hear" => Some(Kind::Hear),
        "await" => Some(Kind::Await),
        "notices" => Some(Kind::Notices),
        "turns" => Some(Kind::Turns),
        _ => None,
    }
}

/// The kind of the first key that is a kind's own.
fn kind_among(members: &Map<String, Value>) -> Option<Kind>
    ensures { result ≡ kind_among (members_view members.now.entries) }
{
    for (key, _value) in members {
        if let Some(kind) = kind_by(key.as_str()) {
            return Some(kind);
        }
    }
    None
}

/// The kind of a value, if it is an object that has an own key of one.
pub(crate) fn kind_of(value: &Value) -> Option<Kind>
    ensures { result ≡ kind_of (view value.now) }
{
    kind_among(value.as_object()?)
}
