//! The order of markers.
ghost use Rattle.std.specs.Prelude.{◌≡◌, true, nat_lt, IfOk, IfErr, Some, None, Ok};
ghost use Rattle.ax_record.specs.ObjectTrees.{IsObjectTree};
ghost use Rattle.text_order.specs.Texts.{is_text, place};
ghost use Rattle.text_marker.specs.Markers.{is_above, placing};
ghost use Rattle.text_marker.specs.Answers.{refusal_of_both, answered_both};

use crate::MarkError;
use crate::ancestors::precedes;
use crate::standing::object_of;
use ax_ask::{Marker, Placing};
use ax_base::ObjId;
use ax_record::TreeView;

/// Where a marker stands, seen from another: by the places of their texts, and in one text by their offsets. It climbs from both
/// texts to their lowest common ancestor, at most 64 levels, and goes over the kids of that one once. It takes no memory and
/// never answers `NoMemory`.
pub fn compare<T: TreeView>(t: &T, a: Marker, b: Marker) -> Result<Placing, MarkError>
    ensures { result ≡ answered_both (T.tree t.now) a b (Ok (placing (T.tree t.now) a b)) }
{
    let (first, second) = (a, b);
    both_stand(t, first, second)?;
    Ok(placing_of(t, a, b))
}

/// Where a marker that stands in a text stands, seen from another.
fn placing_of<T: TreeView>(t: &T, a: Marker, b: Marker) -> Placing
    requires a_text { is_text (T.tree t.now) a.id ≡ true }
    requires b_text { is_text (T.tree t.now) b.id ≡ true }
    requires is_tree { IsObjectTree (T.tree t.now) }
    ensures { result ≡ placing (T.tree t.now) a b }
{
    let (first, second) = (a, b);
    if is_below(t, first, second) {
        return Placing::Before;
    }
    if a.id == b.id && a.offset == b.offset {
        return Placing::Same;
    }
    Placing::After
}

/// Refuses two markers one of which is stale, and else those one of which is out.
pub(crate) fn both_stand<T: TreeView>(t: &T, a: Marker, b: Marker) -> Result<(), MarkError>
    ensures stand { IfOk result (λ u. refusal_of_both (T.tree t.now) a b ≡ None) }
    ensures refused { IfErr result (λ e. refusal_of_both (T.tree t.now) a b ≡ Some e) }
    ensures is_tree { IsObjectTree (T.tree t.now) }
{
    if t.find(a.id).is_none() || t.find(b.id).is_none() {
        return Err(MarkError::Stale);
    }
    let _ = object_of(t, a)?;
    let _ = object_of(t, b)?;
    Ok(())
}

/// Whether a marker stands below another.
pub(crate) fn is_below<T: TreeView>(t: &T, a: Marker, b: Marker) -> bool
    requires a_text { is_text (T.tree t.now) a.id ≡ true }
    requires b_text { is_text (T.tree t.now) b.id ≡ true }
    ensures { result ≡ is_above (T.tree t.now) a b }
{
    if a.id == b.id {
        a.offset < b.offset
    } else {
        comes_before(t, a.id, b.id)
    }
}

/// Whether a text object comes before another.
fn comes_before<T: TreeView>(t: &T, a: ObjId, b: ObjId) -> bool
    requires a_text { is_text (T.tree t.now) a ≡ true }
    requires b_text { is_text (T.tree t.now) b ≡ true }
    ensures { result ≡ nat_lt (place (T.tree t.now) a) (place (T.tree t.now) b) }
{
    precedes(t, a, b)
}
