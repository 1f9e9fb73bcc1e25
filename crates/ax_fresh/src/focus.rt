//! The object that has the focus.
ghost use Rattle.std.specs.Prelude.{◌≡◌};
ghost use Rattle.ax_base.specs.Trees.{IsTree};
ghost use Rattle.ax_record.specs.Records.{tree, focused_object};

use ax_base::{ObjId, Steps};
use ax_dom::Dom;
use ax_record::RecordMap;
use std::sync::ledger::Ledger;

/// The object that has the focus: the focused node, or the nearest of its ancestors that is an object.
pub fn focused_object<L: Ledger>(
    dom: &Dom,
    records: &RecordMap,
    steps: &mut Steps<L>,
) -> Option<ObjId>
    requires tree { IsTree dom.now }
    requires records { records.now ≡ (tree dom.now).entries }
    ensures { result ≡ focused_object dom.now }
{
    let mut at = dom.focus()?;
    'up: while !records.has(at) {
        at = dom.parent(at, steps)?;
    }
    Some(at)
}
