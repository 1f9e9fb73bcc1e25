//! The bounds of a range.
ghost use Rattle.std.specs.Prelude.{◌≡◌, ◌∷◌, List, Bool, IfSome, IsTrue, Ok, filter};
ghost use Rattle.std.specs.List.{flat_map};
ghost use Rattle.std.specs.Option.{option_map_or};
ghost use Rattle.ax_base.specs.declared.rect.Run.{Run};
ghost use Rattle.ax_base.specs.declared.rect.Rect.{Rect};
ghost use Rattle.ax_base.specs.Rects.{unite, IsWithinBounds, AreRunsWithin};
ghost use Rattle.ax_record.specs.Tree.{has_object};
ghost use Rattle.text_order.specs.Texts.{later_texts};
ghost use Rattle.text_marker.specs.Ranges.{bounds_between, range_bounds, range_runs, shares, up_to, widened};
ghost use Rattle.text_marker.specs.Answers.{answered_both};

use crate::MarkError;
use crate::ranges::{Range, range_of};
use crate::standing::text_of;
use crate::stops::count;
use ax_ask::Marker;
use ax_base::{ObjId, Rect, Run, unite};
use ax_record::TreeView;
use text_order::next_text;

/// The bounds of a range, whichever of its markers comes first: the least rectangle that holds the rectangle of each run that
/// shares a character with the range, or `None` where none does. It takes no memory; where k texts of the range stand under one
/// parent, it makes up to k² / 2 comparisons of ids.
pub fn range_bounds<T: TreeView>(t: &T, a: Marker, b: Marker) -> Result<Option<Rect>, MarkError>
    ensures { result ≡ answered_both (T.tree t.now) a b (Ok (range_bounds (T.tree t.now) a b)) }
{
    let range = range_of(t, a, b)?;
    Ok(bounds_of(t, &range))
}

/// The bounds of the texts of a range.
fn bounds_of<T: TreeView>(t: &T, range: &Range) -> Option<Rect>
    requires { IsTrue (has_object (T.tree t.now) range.now.low.id) }
    ensures { result ≡ bounds_between (T.tree t.now) range.now.low range.now.high }
{
    let bounds = with_text(t, range, range.low.id, None);
    if range.low.id == range.high.id {
        return bounds;
    }
    with_following(t, range, bounds)
}

/// Bounds that are widened to hold the runs of what follows the first text of a range, up to its last one.
fn with_following<T: TreeView>(t: &T, range: &Range, bounds: Option<Rect>) -> Option<Rect>
    requires known { IsTrue (has_object (T.tree t.now) range.now.low.id) }
    requires within { IfSome bounds IsWithinBounds }
    ensures { result ≡ widened bounds (flat_map (range_runs (T.tree t.now) range.now.low range.now.high) (up_to range.now.high.id (later_texts (T.tree t.now) range.now.low.id))) }
{
    let mut at = range.low.id;
    let mut bounds = bounds;
    while let Some(next) = next_text(t, at) {
        bounds = with_text(t, range, next, bounds);
        if next == range.high.id {
            return bounds;
        }
        at = next;
    }
    bounds
}

/// Bounds that are widened to hold the runs of a text that share a character with a range.
fn with_text<T: TreeView>(t: &T, range: &Range, id: ObjId, bounds: Option<Rect>) -> Option<Rect>
    requires known { IsTrue (has_object (T.tree t.now) id) }
    requires within { IfSome bounds IsWithinBounds }
    ensures all { result ≡ widened bounds (range_runs (T.tree t.now) range.now.low range.now.high id) }
    ensures within { IfSome result IsWithinBounds }
{
    let Some(object) = t.find(id) else {
        return bounds;
    };
    let low = range.low_in(id);
    let high = range.high_in(id, count(text_of(object)));
    with_runs(object.runs.as_slice(), low, high, bounds)
}

/// Bounds that are widened to hold those of some runs that share a character with the ones between two offsets.
fn with_runs(runs: &[Run], low: u32, high: u32, bounds: Option<Rect>) -> Option<Rect>
    requires runs { AreRunsWithin runs.now }
    requires bounds { IfSome bounds IsWithinBounds }
    ensures all { result ≡ widened bounds (filter (shares low high) runs.now) }
    ensures within { IfSome result IsWithinBounds }
{
    let mut bounds = bounds;
    let mut left = runs;
    while let [run, rest @ ..] = left {
        bounds = with_run(run, low, high, bounds);
        left = rest;
    }
    bounds
}

/// Bounds that are widened to hold a run, if it shares a character with the ones between two offsets.
fn with_run(run: &Run, low: u32, high: u32, bounds: Option<Rect>) -> Option<Rect>
    requires run { IsWithinBounds run.now.rect }
    requires bounds { IfSome bounds IsWithinBounds }
    ensures all { (more : List Run) → widened bounds (filter (shares low high) (run.now ∷ more)) ≡ widened result (filter (shares low high) more) }
    ensures within { IfSome result IsWithinBounds }
{
    if shares(run, low, high) {
        Some(widened(bounds, run.rect))
    } else {
        bounds
    }
}

/// Whether a run shares a character with the ones between two offsets.
fn shares(run: &Run, low: u32, high: u32) -> bool
    ensures { result ≡ shares low high run.now }
{
    (run.first < run.past && run.first < high) && (low < run.past && low < high)
}

/// The least rectangle that holds the bounds, where there are any, and a rectangle.
fn widened(bounds: Option<Rect>, rect: Rect) -> Rect
    requires bounds { IfSome bounds IsWithinBounds }
    requires rect { IsWithinBounds rect }
    ensures value { result ≡ option_map_or (λ b. unite b rect) bounds rect }
    ensures within { IsWithinBounds result }
{
    match bounds {
        Some(bounds) => unite(bounds, rect),
        None => rect,
    }
}
