//! The line that a marker is on.
ghost use Rattle.std.specs.Prelude.{◌≡◌, ◌++◌, ◌+◌, ◌<◌, List, ℕ, true, map, take, reverse, find, slice_get, length, if◌then◌else◌, IsTrue, MatchOption, None, Some};
ghost use Rattle.std.specs.List.{flat_map};
ghost use Rattle.ax_base.specs.declared.rect.Run.{Run};
ghost use Rattle.ax_record.specs.Tree.{has_object};
ghost use Rattle.text_order.specs.Texts.{later_texts, earlier_texts};
ghost use Rattle.text_marker.specs.Markers.{mark};
ghost use Rattle.text_marker.specs.Lines.{stretch_start, stretch_end, of_text, runs_at, is_run_of, line_range};
ghost use Rattle.text_marker.specs.Answers.{answered};

use crate::MarkError;
use crate::standing::{object_of, text_of};
use crate::stops::count;
use ax_ask::Marker;
use ax_base::{ObjId, Run};
use ax_record::TreeView;
use text_order::{next_text, prior_text};

/// The line that a marker is on, from its start to its end, or `None` where its text has no runs: the longest stretch of runs around
/// the marker's own with the same line number, over all texts in order. It takes no memory, and reads the runs of the line and of
/// the texts next to it; where k texts of the line stand under one parent, it makes up to k² / 2 comparisons of ids.
pub fn line_range<T: TreeView>(t: &T, at: Marker) -> Result<Option<(Marker, Marker)>, MarkError>
    ensures { result ≡ answered (T.tree t.now) at (line_range (T.tree t.now) at) }
{
    let Marker { id, offset } = at;
    let object = object_of(t, at)?;
    let text = text_of(object);
    let count = count(text);
    let runs = object.runs.as_slice();
    let Some(own) = run_at(runs, offset, count) else {
        return Ok(None);
    };
    let run = runs[own];
    let start = line_start(t, id, &runs[..own], run.line, run.first);
    let end = line_end(t, id, &runs[own + 1..], run.line, run.past);
    Ok(Some((start, end)))
}

/// Where in the runs of a text of so many characters the run of an offset stands.
fn run_at(runs: &[Run], offset: u32, count: u32) -> Option<usize>
    ensures { MatchOption result
        (find (is_run_of offset count) runs.now ≡ None)
        (λ own. (own < length runs.now) × (find (is_run_of offset count) (take own runs.now) ≡ None)
        × ((r : Run) → slice_get runs.now own ≡ Some r → is_run_of offset count r ≡ true)) }
{
    let mut own = 0;
    while own < runs.len() {
        if is_own(&runs[own], offset, count) {
            return Some(own);
        }
        own += 1;
    }
    None
}

/// Whether a run is that of an offset of a text of so many characters.
fn is_own(run: &Run, offset: u32, count: u32) -> bool
    ensures { result ≡ is_run_of offset count run.now }
{
    (run.first <= offset && offset < run.past) || (run.past == count && offset == count)
}

/// Where a line begins that goes back from an offset of a text: before the last of the runs from there on, going back, that are of
/// that line.
fn line_start<T: TreeView>(t: &T, id: ObjId, front: &[Run], line: u32, first: u32) -> Marker
    requires { IsTrue (has_object (T.tree t.now) id) }
    ensures { result ≡ stretch_start line (mark id first) (reverse (of_text id front.now) ++ flat_map (λ n. reverse (runs_at (T.tree t.now) n)) (earlier_texts (T.tree t.now) id)) }
{
    let mut start = Marker { id, offset: first };
    if !go_back(id, front, line, &mut start) {
        return start;
    }
    let mut at = id;
    while let Some(prior) = prior_text(t, at) {
        let Some(object) = t.find(prior) else {
            return start;
        };
        if !go_back(prior, object.runs.as_slice(), line, &mut start) {
            return start;
        }
        at = prior;
    }
    start
}

/// Goes back before the runs of a text, as long as they are of the line. Whether all are.
fn go_back(id: ObjId, runs: &[Run], line: u32, start: &mut Marker) -> bool
    ensures { (more : List (ℕ × Run)) → stretch_start line start.old (reverse (of_text id runs.now) ++ more) ≡ (if result then stretch_start line start.new more else start.new) }
{
    let mut left = runs.len();
    while left > 0 {
        let run = runs[left - 1];
        if run.line != line {
            return false;
        }
        *start = Marker {
            id,
            offset: run.first,
        };
        left -= 1;
    }
    true
}

/// Where a line ends that goes on from an offset of a text: behind the last of the runs from there on that are of that line.
fn line_end<T: TreeView>(t: &T, id: ObjId, rest: &[Run], line: u32, past: u32) -> Marker
    requires { IsTrue (has_object (T.tree t.now) id) }
    ensures { result ≡ stretch_end line (mark id past) (of_text id rest.now ++ flat_map (runs_at (T.tree t.now)) (later_texts (T.tree t.now) id)) }
{
    let mut end = Marker { id, offset: past };
    if !go_on(id, rest, line, &mut end) {
        return end;
    }
    let mut at = id;
    while let Some(next) = next_text(t, at) {
        let Some(object) = t.find(next) else {
            return end;
        };
        if !go_on(next, object.runs.as_slice(), line, &mut end) {
            return end;
        }
        at = next;
    }
    end
}

/// Goes behind the runs of a text, as long as they are of the line. Whether all are.
fn go_on(id: ObjId, runs: &[Run], line: u32, end: &mut Marker) -> bool
    ensures { (more : List (ℕ × Run)) → stretch_end line end.old (of_text id runs.now ++ more) ≡ (if result then stretch_end line end.new more else end.new) }
{
    let mut left = runs;
    while let [run, rest @ ..] = left {
        if run.line != line {
            return false;
        }
        *end = Marker {
            id,
            offset: run.past,
        };
        left = rest;
    }
    true
}
