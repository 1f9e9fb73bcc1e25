//! The text that a marker stands in.
ghost use Rattle.std.specs.Prelude.{◌≡◌, [], ◌<◌, ◌^◌, length, IfOk, IfErr, Some, None};
ghost use Rattle.std.specs.Option.{unwrap_or};
ghost use Rattle.ax_record.specs.Tree.{record_at};
ghost use Rattle.ax_record.specs.ObjectTrees.{IsObjectTree};
ghost use Rattle.text_marker.specs.Answers.{refusal};

use crate::MarkError;
use ax_ask::Marker;
use ax_record::{Record, TreeView};

/// The text object that a marker stands in. It is refused exactly where the marker is.
pub(crate) fn object_of<T: TreeView>(t: &T, at: Marker) -> Result<&Record, MarkError>
    ensures known { IfOk result (λ r. Some r.now ≡ record_at (T.tree t.now) at.id) }
    ensures stands { IfOk result (λ r. refusal (T.tree t.now) at ≡ None) }
    ensures refused { IfErr result (λ e. refusal (T.tree t.now) at ≡ Some e) }
    ensures is_tree { IsObjectTree (T.tree t.now) }
{
    let Some(object) = t.find(at.id) else {
        return Err(MarkError::Stale);
    };
    let Some(text) = &object.text else {
        return Err(MarkError::Out);
    };
    if text.count() < at.offset as usize {
        return Err(MarkError::Out);
    }
    Ok(object)
}

/// The text of an object; the empty text of one that is no text object.
pub(crate) fn text_of(object: &Record) -> &str
    ensures { result.now ≡ unwrap_or object.now.text [] }
{
    match &object.text {
        Some(text) => text.as_str(),
        None => "",
    }
}
