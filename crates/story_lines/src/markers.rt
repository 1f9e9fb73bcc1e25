//! Text markers.
ghost use Rattle.std.specs.Prelude.{◌≡◌};
ghost use Rattle.serde_json.specs.View.{view, items_view};
ghost use Rattle.story_lines.specs.Markers.{marker_by, marker, marker_at};

use crate::values::{MAX_ID, integer};
use ax_ask::Marker;
use ax_base::ObjId;
use serde_json::Value;

/// The greatest place in a text.
const MAX_OFFSET: u32 = 4_294_967_295;

/// A marker by its text and its place in it.
fn marker_by(id: &Value, offset: &Value) -> Option<Marker>
    ensures { result ≡ marker_by (view id.now) (view offset.now) }
{
    Some(Marker {
        id: ObjId(integer(id, 1, MAX_ID)?),
        offset: integer(offset, 0, MAX_OFFSET)?,
    })
}

/// The marker that values are.
fn marker(values: &[Value]) -> Option<Marker>
    ensures { result ≡ marker (items_view values.now) }
{
    if values.len() != 2 {
        return None;
    }
    marker_by(&values[0], &values[1])
}

/// The marker at a key.
pub(crate) fn marker_at(value: &Value, key: &str) -> Option<Marker>
    ensures { result ≡ marker_at key.now (view value.now) }
{
    marker(value.get(key)?.as_array()?)
}
