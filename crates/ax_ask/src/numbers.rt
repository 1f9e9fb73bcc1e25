//! Numbers, markers and rectangles in texts.
ghost use Rattle.std.specs.Prelude.{◌≡◌, ◌++◌, OnOk, string_bytes};
ghost use Rattle.std.specs.Fmt.{decimal};
ghost use Rattle.ax_ask.specs.Numbers.{spaced, all_spaced, marker_text, pair_text, rect_text};

use crate::Marker;
use ax_base::{NoMemory, ObjId, Rect};
use std::fmt::Write;

/// Adds a label and a number.
pub fn push_number(out: &mut String, label: &str, number: u32) -> Result<(), NoMemory>
    ensures { OnOk result (string_bytes out.new ≡ string_bytes out.old ++ (label.now ++ decimal number)) }
{
    write!(out, "{label}{number}")?;
    Ok(())
}

/// Adds a label and a marker.
pub fn push_marker(out: &mut String, label: &str, marker: Marker) -> Result<(), NoMemory>
    ensures { OnOk result (string_bytes out.new ≡ string_bytes out.old ++ (label.now ++ marker_text marker)) }
{
    let id = marker.id.number();
    let offset = marker.offset;
    write!(out, "{label}{id} {offset}")?;
    Ok(())
}

/// Adds a label and two numbers.
fn push_pair(out: &mut String, label: &str, first: i32, second: i32) -> Result<(), NoMemory>
    ensures { OnOk result (string_bytes out.new ≡ string_bytes out.old ++ (label.now ++ pair_text first second)) }
{
    write!(out, "{label}{first} {second}")?;
    Ok(())
}

/// Adds a label and a rectangle.
pub fn push_rect(out: &mut String, label: &str, rect: Rect) -> Result<(), NoMemory>
    ensures { OnOk result (string_bytes out.new ≡ string_bytes out.old ++ (label.now ++ rect_text rect)) }
{
    push_pair(out, label, rect.x, rect.y)?;
    push_pair(out, " ", rect.w, rect.h)?;
    Ok(())
}

fn push_spaced(out: &mut String, id: ObjId) -> Result<(), NoMemory>
    ensures { OnOk result (string_bytes out.new ≡ string_bytes out.old ++ spaced id) }
{
    let number = id.number();
    write!(out, " {number}")?;
    Ok(())
}

/// Adds ids, each after a space.
pub fn push_ids(out: &mut String, ids: &[ObjId]) -> Result<(), NoMemory>
    ensures { OnOk result (string_bytes out.new ≡ string_bytes out.old ++ all_spaced ids.now) }
{
    for id in ids {
        push_spaced(out, *id)?;
    }
    Ok(())
}
