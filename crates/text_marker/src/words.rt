//! Where the words of one text begin (UAX #29, section 4).
ghost use Rattle.std.specs.Prelude.{◌≡◌, ◌^◌, ◌+◌, ◌<◌, ◌≤◌, ◌∷◌, [], ℕ, Bool, false, ◌&&◌, nat_le, nat_eq, length, filter, find, MatchOption, None};
ghost use Rattle.std.specs.List.{list_any, concat};
ghost use Rattle.unicode_segmentation.specs.Iter.{graphemes_left, word_bounds_left, unicode_words_left};
ghost use Rattle.unicode_segmentation.specs.Segments.{has_alphanumeric};
ghost use Rattle.text_marker.specs.Stops.{stops_of, stops_from, word_begins, word_begins_from};

use crate::stops::count;
use unicode_segmentation::{Graphemes, UWordBounds, UnicodeSegmentation, UnicodeWords};

/// The least stop of a text, from an offset on, at which a word begins. It reads the text up to there.
pub(crate) fn next_word_stop(text: &str, from: u32) -> Option<u32>
    requires { length text.now < 2 ^ 32 }
    ensures { result ≡ find (λ stop. nat_le from stop && list_any (nat_eq stop) (word_begins text.now)) (stops_of text.now) }
{
    let mut pieces = text.graphemes(true);
    let mut bounds = text.split_word_bounds();
    let mut words = text.unicode_words();
    let mut stop = go_to(&mut pieces, 0, from)?;
    let mut at = 0u32;
    while let Some((begin, past)) = next_begin(&mut bounds, &mut words, at) {
        stop = go_to(&mut pieces, stop, begin)?;
        if stop == begin {
            return Some(stop);
        }
        at = past;
    }
    None
}

/// Goes on to the first stop from a target on, where the pieces that are left begin at a character; none where the text ends before.
fn go_to(pieces: &mut Graphemes, at: u32, target: u32) -> Option<u32>
    requires { at + length (concat (graphemes_left pieces.old)) < 2 ^ 32 }
    ensures { MatchOption result
        ((q : ℕ → Bool) → ((s : ℕ) → s < target → q s ≡ false) → find q (stops_from at (graphemes_left pieces.old)) ≡ None)
        (λ stop. (target ≤ stop) × (at ≤ stop) × (stop + length (concat (graphemes_left pieces.new)) < 2 ^ 32)
        × ((q : ℕ → Bool) → ((s : ℕ) → s < target → q s ≡ false) → find q (stops_from at (graphemes_left pieces.old)) ≡ find q (stops_from stop (graphemes_left pieces.new)))) }
{
    let mut at = at;
    if target <= at {
        return Some(at);
    }
    while let Some(piece) = pieces.next() {
        at += count(piece);
        if target <= at {
            return Some(at);
        }
    }
    None
}

/// Where the next word begins, and where the piece behind it does, where the pieces that are left begin at a character.
fn next_begin(bounds: &mut UWordBounds, words: &mut UnicodeWords, at: u32) -> Option<(u32, u32)>
    requires fits { at + length (concat (word_bounds_left bounds.old)) < 2 ^ 32 }
    requires same { filter has_alphanumeric (word_bounds_left bounds.old) ≡ unicode_words_left words.old }
    ensures { MatchOption result
        (word_begins_from at (word_bounds_left bounds.old) ≡ [])
        (λ next. (word_begins_from at (word_bounds_left bounds.old) ≡ next.0 ∷ word_begins_from next.1 (word_bounds_left bounds.new))
        × (next.0 ≤ next.1) × (next.1 + length (concat (word_bounds_left bounds.new)) < 2 ^ 32)
        × (filter has_alphanumeric (word_bounds_left bounds.new) ≡ unicode_words_left words.new)) }
{
    let word = words.next()?;
    let mut at = at;
    while let Some(bound) = bounds.next() {
        let past = at + count(bound);
        if bound == word {
            return Some((at, past));
        }
        at = past;
    }
    None
}
