//! The moves of a marker.
ghost use Rattle.std.specs.Prelude.{◌≡◌, ◌∷◌, List, reverse, find, IsTrue};
ghost use Rattle.std.specs.List.{flat_map};
ghost use Rattle.ax_ask.specs.declared.requests.Marker.{Marker};
ghost use Rattle.ax_record.specs.Tree.{has_object};
ghost use Rattle.text_order.specs.Texts.{later_texts};
ghost use Rattle.text_marker.specs.Markers.{mark, stops_at, begins_word, next_char, prev_char, next_word};
ghost use Rattle.text_marker.specs.Answers.{answered};

use crate::MarkError;
use crate::standing::{object_of, text_of};
use crate::stops::{count, next_stop, prior_stop};
use crate::words::next_word_stop;
use ax_ask::Marker;
use ax_base::ObjId;
use ax_record::TreeView;
use text_order::{next_text, prior_text};

/// The least stop above a marker, or `None` behind the last one. The stops are the boundaries of extended grapheme clusters
/// (UAX #29) in each text, with both ends: so the end of one text and the start of the next are two. It takes no memory, and
/// reads the marker's text alone.
pub fn next_char<T: TreeView>(t: &T, at: Marker) -> Result<Option<Marker>, MarkError>
    ensures { result ≡ answered (T.tree t.now) at (next_char (T.tree t.now) at) }
{
    let Marker { id, offset } = at;
    let object = object_of(t, at)?;
    let text = text_of(object);
    if let Some(offset) = next_stop(text, offset) {
        return Ok(Some(Marker { id, offset }));
    }
    match next_text(t, id) {
        Some(id) => Ok(Some(Marker { id, offset: 0 })),
        None => Ok(None),
    }
}

/// The greatest stop below a marker, or `None` before the first one. It takes no memory, and reads the marker's text and at most
/// the one before it.
pub fn prev_char<T: TreeView>(t: &T, at: Marker) -> Result<Option<Marker>, MarkError>
    ensures { result ≡ answered (T.tree t.now) at (prev_char (T.tree t.now) at) }
{
    let Marker { id, offset } = at;
    let object = object_of(t, at)?;
    let text = text_of(object);
    if let Some(offset) = prior_stop(text, offset) {
        return Ok(Some(Marker { id, offset }));
    }
    match prior_text(t, id) {
        Some(id) => Ok(Some(end_of(t, id))),
        None => Ok(None),
    }
}

/// The least stop above a marker at which a word begins (UAX #29), or `None` where none does. It takes no memory, and reads the
/// texts up to there; where k of them stand under one parent, `next_text` makes up to k² / 2 comparisons of ids.
pub fn next_word<T: TreeView>(t: &T, at: Marker) -> Result<Option<Marker>, MarkError>
    ensures { result ≡ answered (T.tree t.now) at (next_word (T.tree t.now) at) }
{
    let Marker { id, offset } = at;
    let object = object_of(t, at)?;
    let text = text_of(object);
    if let Some(offset) = next_word_stop(text, offset + 1) {
        return Ok(Some(Marker { id, offset }));
    }
    Ok(word_behind(t, id))
}

/// The last stop of a text object.
fn end_of<T: TreeView>(t: &T, id: ObjId) -> Marker
    requires { IsTrue (has_object (T.tree t.now) id) }
    ensures own { result.id ≡ id }
    ensures last { (rest : List Marker) × (reverse (stops_at (T.tree t.now) id) ≡ result ∷ rest) }
{
    match t.find(id) {
        Some(object) => Marker {
            id,
            offset: count(text_of(object)),
        },
        None => Marker { id, offset: 0 },
    }
}

/// The first stop of the texts behind an object at which a word begins.
fn word_behind<T: TreeView>(t: &T, id: ObjId) -> Option<Marker>
    requires { IsTrue (has_object (T.tree t.now) id) }
    ensures { result ≡ find (begins_word (T.tree t.now)) (flat_map (stops_at (T.tree t.now)) (later_texts (T.tree t.now) id)) }
{
    let mut at = id;
    while let Some(next) = next_text(t, at) {
        if let Some(found) = word_in(t, next) {
            return Some(found);
        }
        at = next;
    }
    None
}

/// The first stop of a text object at which a word begins.
fn word_in<T: TreeView>(t: &T, id: ObjId) -> Option<Marker>
    requires { IsTrue (has_object (T.tree t.now) id) }
    ensures { result ≡ find (begins_word (T.tree t.now)) (stops_at (T.tree t.now) id) }
{
    let object = t.find(id)?;
    match next_word_stop(text_of(object), 0) {
        Some(offset) => Some(Marker { id, offset }),
        None => None,
    }
}
