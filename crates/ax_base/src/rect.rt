//! Rectangles, and the runs of a text.
ghost use Rattle.std.specs.Prelude.{◌≡◌, ◌+ℤ◌};
ghost use Rattle.std.specs.Int.{int_min, int_max};
ghost use Rattle.ax_base.specs.Rects.{IsWithinBounds, IsSideWithin, IsSpanWithin, between, unite, spans, holds_point};

/// A rectangle in the page's own units: its left and top edges, its width and its height.
#[derive(Clone, Copy, Debug, PartialEq, Eq)]
pub struct Rect {
    pub x: i32,
    pub y: i32,
    pub w: i32,
    pub h: i32,
}

/// A run of a text: its characters from `first` to before `past`, counted from 0, the number of its line, and its frame.
#[derive(Clone, Copy, Debug, PartialEq, Eq)]
pub struct Run {
    pub first: u32,
    pub past: u32,
    pub line: u32,
    pub rect: Rect,
}

/// Whether a rectangle holds a point: its left and top edges belong to it, its right and bottom edges do not.
pub fn contains_point(r: Rect, x: i32, y: i32) -> bool
    requires { IsWithinBounds r }
    ensures { result ≡ holds_point r x y }
{
    spans(r.x, r.w, x) && spans(r.y, r.h, y)
}

/// Whether `at` lies in `edge .. edge + side`, the end excluded.
fn spans(edge: i32, side: i32, at: i32) -> bool
    requires { IsSideWithin edge side }
    ensures { result ≡ spans edge side at }
{
    edge <= at && at < edge + side
}

/// The least rectangle that holds two: its left and top edges are the lesser ones of the two, its right and bottom edges the
/// greater ones.
pub fn unite(a: Rect, b: Rect) -> Rect
    requires first { IsWithinBounds a }
    requires second { IsWithinBounds b }
    ensures value { result ≡ unite a b }
    ensures within { IsWithinBounds result }
{
    let (left, right) = edges(a.x, a.w, b.x, b.w);
    let (top, bottom) = edges(a.y, a.h, b.y, b.h);
    between(left, top, right, bottom)
}

/// The lesser of two edges, and the greater of the edges across from them.
fn edges(a: i32, a_side: i32, b: i32, b_side: i32) -> (i32, i32)
    requires first { IsSideWithin a a_side }
    requires second { IsSideWithin b b_side }
    ensures low { result.0 ≡ int_min a b }
    ensures high { result.1 ≡ int_max (a +ℤ a_side) (b +ℤ b_side) }
    ensures within { IsSpanWithin result.0 result.1 }
{
    (a.min(b), (a + a_side).max(b + b_side))
}

/// The rectangle between a left, a top, a right and a bottom edge.
fn between(left: i32, top: i32, right: i32, bottom: i32) -> Rect
    requires across { IsSpanWithin left right }
    requires down { IsSpanWithin top bottom }
    ensures value { result ≡ between left top right bottom }
    ensures within { IsWithinBounds result }
{
    Rect {
        x: left,
        y: top,
        w: right - left,
        h: bottom - top,
    }
}
