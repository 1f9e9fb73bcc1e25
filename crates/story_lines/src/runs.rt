//! Rectangles, and the runs of a text.
ghost use Rattle.std.specs.Prelude.{◌≡◌, codes, option_and_then, IfOk};
ghost use Rattle.serde_json.specs.View.{view, items_view};
ghost use Rattle.serde_json.specs.Find.{get, as_array};
ghost use Rattle.story_lines.specs.Runs.{edge, size, rect_by, rect, run_by, run, run_in, runs, rect_at, runs_at};

use crate::values::integer;
use ax_base::{NoMemory, Rect, Run, Runs};
use serde_json::Value;
use std::alloc::Global;

/// How far an edge may lie from 0, how wide or high something may be, and the greatest number of a line.
const FARTHEST: i32 = 1_048_576;

const MOST_LINES: u32 = 1_048_576;

/// The most characters of a text.
const MOST_CHARACTERS: u32 = 65_536;

fn edge(value: &Value) -> Option<i32>
    ensures { result ≡ edge (view value.now) }
{
    let number = i32::try_from(value.as_i64()?).ok()?;
    if -FARTHEST <= number && number <= FARTHEST {
        Some(number)
    } else {
        None
    }
}

fn size(value: &Value) -> Option<i32>
    ensures { result ≡ size (view value.now) }
{
    let number = integer(value, 0, FARTHEST as u32)?;
    Some(number as i32)
}

fn rect_by(x: &Value, y: &Value, w: &Value, h: &Value) -> Option<Rect>
    ensures { result ≡ rect_by (view x.now) (view y.now) (view w.now) (view h.now) }
{
    Some(Rect {
        x: edge(x)?,
        y: edge(y)?,
        w: size(w)?,
        h: size(h)?,
    })
}

fn rect(values: &[Value]) -> Option<Rect>
    ensures { result ≡ rect (items_view values.now) }
{
    let [x, y, w, h] = values else {
        return None;
    };
    rect_by(x, y, w, h)
}

/// The rectangle at the key `rect`.
pub(crate) fn rect_at(value: &Value) -> Option<Rect>
    ensures { result ≡ rect_at (view value.now) }
{
    rect(value.get("rect")?.as_array()?)
}

fn run_by(first: &Value, past: &Value, line: &Value, rect: Option<Rect>) -> Option<Run>
    ensures { result ≡ run_by (view first.now) (view past.now) (view line.now) rect }
{
    Some(Run {
        first: integer(first, 0, MOST_CHARACTERS)?,
        past: integer(past, 0, MOST_CHARACTERS)?,
        line: integer(line, 0, MOST_LINES)?,
        rect: rect?,
    })
}

fn run(values: &[Value]) -> Option<Run>
    ensures { result ≡ run (items_view values.now) }
{
    let [first, past, line, x, y, w, h] = values else {
        return None;
    };
    run_by(first, past, line, rect_by(x, y, w, h))
}

fn run_in(value: &Value) -> Option<Run>
    ensures { result ≡ run_in (view value.now) }
{
    run(value.as_array()?)
}

fn runs(alloc: Global, values: &[Value]) -> Result<Option<Runs>, NoMemory>
    ensures { IfOk result (λ list. list ≡ runs (items_view values.now)) }
{
    let mut list = Vec::with_capacity(alloc, values.len())?;
    for value in values {
        let Some(run) = run_in(value) else {
            return Ok(None);
        };
        list.push(run)?;
    }
    Ok(Some(Runs::from_vec(list)))
}

/// The runs at the key `list`.
pub(crate) fn runs_at(alloc: Global, value: &Value) -> Result<Option<Runs>, NoMemory>
    ensures { IfOk result (λ list. list ≡ runs_at (view value.now)) }
{
    let Some(list) = value.get("list") else {
        return Ok(None);
    };
    match list.as_array() {
        None => Ok(None),
        Some(values) => runs(alloc, values),
    }
}
