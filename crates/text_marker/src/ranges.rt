//! Ranges between two markers.
ghost use Rattle.std.specs.Prelude.{◌≡◌, ◌==◌, true, IfOk, IfErr, None, Some, if◌then◌else◌};
ghost use Rattle.ax_record.specs.ObjectTrees.{IsObjectTree};
ghost use Rattle.text_order.specs.Texts.{is_text};
ghost use Rattle.text_marker.specs.Ranges.{lesser, greater, low_of};
ghost use Rattle.text_marker.specs.Answers.{refusal_of_both};

use crate::MarkError;
use crate::placing::{both_stand, is_below};
use ax_ask::Marker;
use ax_base::ObjId;
use ax_record::TreeView;

/// A range, from its lesser marker to its greater one.
#[derive(Drop)]
pub(crate) struct Range {
    pub(crate) low: Marker,
    pub(crate) high: Marker,
}

impl Range {
    /// Where the part of a text begins that the range has.
    pub(crate) fn low_in(&self, id: ObjId) -> u32
        ensures { result ≡ low_of self.now.low id }
    {
        if id == self.low.id {
            self.low.offset
        } else {
            0
        }
    }

    /// Where the part of a text of so many characters ends that the range has.
    pub(crate) fn high_in(&self, id: ObjId, count: u32) -> u32
        ensures { result ≡ (if id == self.now.high.id then self.now.high.offset else count) }
    {
        if id == self.high.id {
            self.high.offset
        } else {
            count
        }
    }
}

/// The range between two markers, whichever of them comes first. It is refused exactly where one of them is.
pub(crate) fn range_of<T: TreeView>(t: &T, a: Marker, b: Marker) -> Result<Range, MarkError>
    ensures stand { IfOk result (λ r. refusal_of_both (T.tree t.now) a b ≡ None) }
    ensures low { IfOk result (λ r. r.low ≡ lesser (T.tree t.now) a b) }
    ensures high { IfOk result (λ r. r.high ≡ greater (T.tree t.now) a b) }
    ensures known { IfOk result (λ r. is_text (T.tree t.now) r.low.id ≡ true) }
    ensures refused { IfErr result (λ e. refusal_of_both (T.tree t.now) a b ≡ Some e) }
    ensures is_tree { IsObjectTree (T.tree t.now) }
{
    let (first, second) = (a, b);
    both_stand(t, first, second)?;
    Ok(ordered(t, a, b))
}

/// The range between two markers that stand in texts.
fn ordered<T: TreeView>(t: &T, a: Marker, b: Marker) -> Range
    requires a_text { is_text (T.tree t.now) a.id ≡ true }
    requires b_text { is_text (T.tree t.now) b.id ≡ true }
    ensures low { result.low ≡ lesser (T.tree t.now) a b }
    ensures high { result.high ≡ greater (T.tree t.now) a b }
    ensures known { is_text (T.tree t.now) result.low.id ≡ true }
{
    let (first, second) = (a, b);
    if is_below(t, second, first) {
        Range { low: b, high: a }
    } else {
        Range { low: a, high: b }
    }
}
