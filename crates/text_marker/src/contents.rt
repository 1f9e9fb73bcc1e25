//! The text of a range.
ghost use Rattle.std.specs.Prelude.{◌≡◌, ◌++◌, ◌==◌, IfOk, IfErr, IsTrue, Ok, chars, drop, take, if◌then◌else◌, option_copied, string_bytes};
ghost use Rattle.ax_record.specs.Tree.{has_object};
ghost use Rattle.text_order.specs.Texts.{later_texts};
ghost use Rattle.text_marker.specs.Ranges.{follow, gap, high_of, is_joined, low_of, meet, part, up_to, words_between};
ghost use Rattle.text_marker.specs.Answers.{IsRefusalOf, Pushed, range_text};

use crate::MarkError;
use crate::ranges::{Range, range_of};
use crate::standing::text_of;
use crate::stops::count;
use ax_ask::Marker;
use ax_base::{ObjId, Run, Text};
use ax_record::TreeView;
use std::alloc::Global;
use text_order::next_text;

/// The most characters of the text of a range.
const MAX_RANGE_CHARACTERS: u32 = 4096;

/// The text of a range, whichever of its markers comes first: the characters from the lesser marker to the greater one, of all
/// texts in order, with one line feed between two texts unless the second goes on with the line of the first. It reads no text
/// behind the one at which the text of the range gets too long; where k texts of the range stand under one parent, it makes up to
/// k² / 2 comparisons of ids.
pub fn range_text<T: TreeView>(
    alloc: Global,
    t: &T,
    a: Marker,
    b: Marker,
) -> Result<Text, MarkError>
    ensures told { IfOk result (λ text. range_text (T.tree t.now) a b ≡ Ok text) }
    ensures refused { IfErr result (λ e. IsRefusalOf (range_text (T.tree t.now) a b) e) }
{
    let range = range_of(t, a, b)?;
    let mut out = String::new(alloc);
    match push_range(t, &range, &mut out, MAX_RANGE_CHARACTERS) {
        Ok(_) => Ok(Text::from_string(out)),
        Err(e) => Err(e),
    }
}

/// Adds the text of a range, where so many characters may still be added. How many may be added after that.
fn push_range<T: TreeView>(
    t: &T,
    range: &Range,
    out: &mut String,
    left: u32,
) -> Result<u32, MarkError>
    requires { IsTrue (has_object (T.tree t.now) range.now.low.id) }
    ensures { Pushed left (words_between (T.tree t.now) range.now.low range.now.high) (string_bytes out.old) (string_bytes out.new) result }
{
    let left = push_part(t, range, out, left, range.low.id)?;
    if range.low.id == range.high.id {
        return Ok(left);
    }
    push_following(t, range, out, left)
}

/// Adds what follows the first text of a range, up to its last one.
fn push_following<T: TreeView>(
    t: &T,
    range: &Range,
    out: &mut String,
    left: u32,
) -> Result<u32, MarkError>
    requires { IsTrue (has_object (T.tree t.now) range.now.low.id) }
    ensures { Pushed left (follow (T.tree t.now) range.now.low range.now.high range.now.low.id (up_to range.now.high.id (later_texts (T.tree t.now) range.now.low.id))) (string_bytes out.old) (string_bytes out.new) result }
{
    let mut at = range.low.id;
    let mut left = left;
    while let Some(next) = next_text(t, at) {
        left = push_next(t, range, out, left, at, next)?;
        if next == range.high.id {
            return Ok(left);
        }
        at = next;
    }
    Ok(left)
}

/// Adds the part of a text, after a line feed where it does not go on with the line of the one before it.
fn push_next<T: TreeView>(
    t: &T,
    range: &Range,
    out: &mut String,
    left: u32,
    at: ObjId,
    next: ObjId,
) -> Result<u32, MarkError>
    requires { IsTrue (has_object (T.tree t.now) next) }
    ensures { Pushed left (gap (T.tree t.now) at next ++ part (T.tree t.now) range.now.low range.now.high next) (string_bytes out.old) (string_bytes out.new) result }
{
    let left = push_gap(t, out, left, at, next)?;
    push_part(t, range, out, left, next)
}

/// Adds a line feed, where the second text does not go on with the line of the first.
fn push_gap<T: TreeView>(
    t: &T,
    out: &mut String,
    left: u32,
    at: ObjId,
    next: ObjId,
) -> Result<u32, MarkError>
    ensures { Pushed left (gap (T.tree t.now) at next) (string_bytes out.old) (string_bytes out.new) result }
{
    if is_joined(t, at, next) {
        return Ok(left);
    }
    push_cut(out, left, "\n", 0, 1)
}

/// Whether a text goes on with the line of another: both have runs, and the last line of one is the first of the other.
fn is_joined<T: TreeView>(t: &T, at: ObjId, next: ObjId) -> bool
    ensures { result ≡ is_joined (T.tree t.now) at next }
{
    match (t.find(at), t.find(next)) {
        (Some(one), Some(other)) => meet(one.runs.as_slice().last(), other.runs.as_slice().first()),
        _ => false,
    }
}

/// Whether two runs stand on one line.
fn meet(one: Option<&Run>, other: Option<&Run>) -> bool
    ensures { result ≡ meet (option_copied one.entry) (option_copied other.entry) }
{
    match (one, other) {
        (Some(one), Some(other)) => one.line == other.line,
        _ => false,
    }
}

/// Adds the part of a text that a range has.
fn push_part<T: TreeView>(
    t: &T,
    range: &Range,
    out: &mut String,
    left: u32,
    id: ObjId,
) -> Result<u32, MarkError>
    requires { IsTrue (has_object (T.tree t.now) id) }
    ensures { Pushed left (part (T.tree t.now) range.now.low range.now.high id) (string_bytes out.old) (string_bytes out.new) result }
{
    let Some(object) = t.find(id) else {
        return Ok(left);
    };
    let text = text_of(object);
    let low = range.low_in(id);
    let high = range.high_in(id, count(text));
    push_cut(out, left, text, low, high)
}

/// Adds the characters of a text from one offset to another.
fn push_cut(out: &mut String, left: u32, text: &str, low: u32, high: u32) -> Result<u32, MarkError>
    ensures { Pushed left (drop low (take high (chars text.now))) (string_bytes out.old) (string_bytes out.new) result }
{
    let mut left = left;
    for c in text.chars().take(high as usize).skip(low as usize) {
        if left == 0 {
            return Err(MarkError::Long);
        }
        match out.push(c) {
            Ok(()) => left -= 1,
            Err(_) => return Err(MarkError::NoMemory),
        }
    }
    Ok(left)
}
