//! The frames of objects.
ghost use Rattle.std.specs.Prelude.{◌≡◌, fold, map};
ghost use Rattle.ax_base.specs.declared.rect.Run.{Run};
ghost use Rattle.ax_base.specs.Rects.{IsWithinBounds, AreRunsWithin, HasRectsWithin, unite, frame_of_runs};
ghost use Rattle.ax_record.specs.Records.{frame_of};

use ax_base::{Body, Rect, Run, unite};

/// The frame of an element; of a text, the least rectangle that holds the rectangles of its runs.
pub fn frame_of(node: &Body) -> Rect
    requires { HasRectsWithin node.now }
    ensures { result ≡ frame_of node.now }
{
    match node {
        Body::Element { frame, .. } => *frame,
        Body::Words { runs, .. } => frame_of_runs(runs.as_slice()),
    }
}

/// The rectangle of a text without runs.
const NOWHERE: Rect = Rect {
    x: 0,
    y: 0,
    w: 0,
    h: 0,
};

/// The least rectangle that holds the rectangles of some runs.
fn frame_of_runs(runs: &[Run]) -> Rect
    requires { AreRunsWithin runs.now }
    ensures { result ≡ frame_of_runs runs.now }
{
    match runs.split_first() {
        Some((first, others)) => united(first.rect, others),
        None => NOWHERE,
    }
}

/// The least rectangle that holds a rectangle and those of some runs.
fn united(first: Rect, others: &[Run]) -> Rect
    requires first { IsWithinBounds first }
    requires others { AreRunsWithin others.now }
    ensures { result ≡ fold unite first (map (λ (r : Run). r.rect) others.now) }
{
    let mut frame = first;
    for run in others {
        frame = unite(frame, run.rect);
    }
    frame
}
