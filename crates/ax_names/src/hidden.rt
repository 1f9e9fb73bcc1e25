//! Nodes that are hidden.
ghost use Rattle.std.specs.Prelude.{◌≡◌, IsTrue};
ghost use Rattle.ax_base.specs.Document.{has, spot};
ghost use Rattle.ax_base.specs.Trees.{IsTree};
ghost use Rattle.ax_base.specs.Roles.{hides};
ghost use Rattle.ax_base.specs.Context.{is_hidden};

use ax_base::{ObjId, Steps};
use ax_dom::Dom;
use std::sync::ledger::Ledger;

/// Whether a node or an ancestor of it hides.
pub fn is_hidden<L: Ledger>(dom: &Dom, id: ObjId, steps: &mut Steps<L>) -> bool
    requires known { IsTrue (has dom.now id) }
    ensures { result ≡ is_hidden dom.now id }
{
    let mut at = id;
    'up: while !node_hides(dom, at, steps) {
        let Some(parent) = dom.parent(at, steps) else {
            return false;
        };
        at = parent;
    }
    true
}

/// Whether a node hides by itself.
fn node_hides<L: Ledger>(dom: &Dom, id: ObjId, steps: &mut Steps<L>) -> bool
    requires known { IsTrue (has dom.now id) }
    ensures tree { IsTree dom.now }
    ensures hides { result ≡ hides (spot dom.now id) }
{
    let Some(cell) = dom.cell(id, steps) else {
        return false;
    };
    ax_roles::node_hides(cell.id, &cell.body)
}
