//! What a node says where no reference is followed, from what its children say.
ghost use Rattle.std.specs.Prelude.{◌≡◌, ◌+◌, true, IfOk};
ghost use Rattle.ax_base.specs.Characters.{Chars};
ghost use Rattle.ax_base.specs.Document.{has, children};
ghost use Rattle.ax_base.specs.Trees.{IsTree};
ghost use Rattle.said_pass.specs.Saids.{kept_text, node_text, children_text, text_from};

use crate::texts::NodeText;
use ax_base::{Body, NoMemory, ObjId, Steps};
use ax_dom::Dom;
use ax_names::{Piece, said_as_child};
use ax_roles::{node_hides, node_role};
use std::alloc::Global;
use std::sync::ledger::Ledger;

/// What a node says for its parent, from what its children say. It reads the node once.
pub(crate) fn node_text<L: Ledger>(
    alloc: Global,
    dom: &Dom,
    id: ObjId,
    inside: NodeText,
    steps: &mut Steps<L>,
) -> Result<NodeText, NoMemory>
    requires tree { IsTree dom.now }
    requires known { has dom.now id ≡ true }
    requires inside { inside ≡ children_text dom.now (children dom.now id) }
    ensures value { IfOk result (λ text. text ≡ node_text dom.now id) }
    ensures counted { steps.new ≡ steps.old + 1 }
{
    match dom.cell(id, steps) {
        Some(cell) => text_from(alloc, id, &cell.body, inside),
        None => Ok(inside),
    }
}

/// The same, of what the node is.
fn text_from(alloc: Global, id: ObjId, node: &Body, inside: NodeText) -> Result<NodeText, NoMemory>
    ensures { IfOk result (λ text. (shown whole : Chars) → inside ≡ kept_text shown whole → text ≡ text_from (record { id = id; body = node.now }) shown whole) }
{
    let role = node_role(id, node);
    let silent = node_hides(id, node);
    let NodeText { shown, whole } = inside;
    let said = said_as_child(alloc, silent, role, Piece::empty(alloc), node, shown)?;
    let all_said = said_as_child(alloc, false, role, Piece::empty(alloc), node, whole)?;
    Ok(NodeText {
        shown: said,
        whole: all_said,
    })
}
