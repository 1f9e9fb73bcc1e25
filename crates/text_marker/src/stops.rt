//! The stops of one text: the boundaries of its extended grapheme clusters (UAX #29), in characters.
ghost use Rattle.std.specs.Prelude.{◌≡◌, ◌^◌, ◌<◌, length, nat_lt, find, reverse};
ghost use Rattle.std.specs.Str.{chars};
ghost use Rattle.text_marker.specs.Stops.{stops_of};

use unicode_segmentation::UnicodeSegmentation;

/// The least stop of a text above an offset. It reads the text up to there.
pub(crate) fn next_stop(text: &str, offset: u32) -> Option<u32>
    requires { length text.now < 2 ^ 32 }
    ensures { result ≡ find (λ stop. nat_lt offset stop) (stops_of text.now) }
{
    let mut at = 0u32;
    let mut pieces = text.graphemes(true);
    while let Some(piece) = pieces.next() {
        if offset < at {
            return Some(at);
        }
        at += count(piece);
    }
    if offset < at { Some(at) } else { None }
}

/// The greatest stop of a text below an offset. It reads the text up to there.
pub(crate) fn prior_stop(text: &str, offset: u32) -> Option<u32>
    requires { length text.now < 2 ^ 32 }
    ensures { result ≡ find (λ stop. nat_lt stop offset) (reverse (stops_of text.now)) }
{
    let mut at = 0u32;
    let mut below = None;
    let mut pieces = text.graphemes(true);
    while let Some(piece) = pieces.next() {
        if offset <= at {
            return below;
        }
        below = Some(at);
        at += count(piece);
    }
    if at < offset { Some(at) } else { below }
}

/// How many characters a text has that is short enough.
pub(crate) fn count(text: &str) -> u32
    requires { length text.now < 2 ^ 32 }
    ensures value { result ≡ length (chars text.now) }
{
    text.chars().count() as u32
}
