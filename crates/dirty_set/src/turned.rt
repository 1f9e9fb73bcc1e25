//! Nodes that an edit makes hide, leave out or set otherwise.
ghost use Rattle.std.specs.Prelude.{◌≡◌, ◌==◌, not};
ghost use Rattle.ax_base.specs.Document.{root};
ghost use Rattle.ax_base.specs.Roles.{role_of};
ghost use Rattle.ax_base.specs.States.{live_by};
ghost use Rattle.dirty_set.specs.Marking.{own_at, same_own};

use ax_base::{Body, Live, ObjId, Role};
use ax_roles::{node_hides, node_role, prunes};
use ax_states::live_set_by;

/// Whether a node hides, leaves out or sets otherwise with one body than with another.
pub fn has_turned(id: ObjId, before: &Body, after: &Body) -> bool
    ensures { result ≡ not (same_own (own_at (record { id = id; body = before.now })) (own_at (record { id = id; body = after.now }))) }
{
    let old_role = node_role(id, before);
    let new_role = node_role(id, after);
    let same_hiding = node_hides(id, before) == node_hides(id, after);
    let same_pruning = prunes(old_role) == prunes(new_role);
    let same_live = live_by(old_role, before) == live_by(new_role, after);
    !(same_hiding && (same_pruning && same_live))
}

/// The live that a node of a role sets; a text sets none.
fn live_by(role: Role, node: &Body) -> Option<Live>
    ensures { result ≡ live_by role node.now }
{
    match node {
        Body::Element { attrs, .. } => live_set_by(role, attrs),
        Body::Words { .. } => None,
    }
}
