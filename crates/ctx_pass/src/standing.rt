//! What a node takes over, sets and hands on.
ghost use Rattle.std.specs.Prelude.{◌≡◌};
ghost use Rattle.ax_base.specs.States.{live_by};
ghost use Rattle.ctx_pass.specs.Contexts.{inherited, passed_on};

use crate::contexts::Context;
use ax_base::{Body, Live, ObjId, Role};
use ax_roles::{node_hides, node_role, prunes};
use ax_states::live_set_by;

/// What the root takes over.
pub(crate) const OUTSIDE: Context = Context {
    hidden: false,
    pruned: false,
    live: Live::Off,
};

/// The context of a node, and what its children take over.
#[derive(Clone, Copy)]
pub(crate) struct Standing {
    pub(crate) here: Context,
    pub(crate) below: Context,
}

/// How a node stands that takes over `above`.
pub(crate) fn stand(id: ObjId, body: &Body, above: Context) -> Standing
    ensures here { result.here ≡ inherited above (record { id = id; body = body.now }) }
    ensures below { result.below ≡ passed_on (inherited above (record { id = id; body = body.now })) (record { id = id; body = body.now }) }
{
    let role = node_role(id, body);
    let here = Context {
        hidden: node_hides(id, body) || above.hidden,
        pruned: above.pruned,
        live: live_by(role, body).unwrap_or(above.live),
    };
    let below = Context {
        pruned: prunes(role) || above.pruned,
        ..here
    };
    Standing { here, below }
}

/// The live that a node of a role sets; a text sets none.
fn live_by(role: Role, body: &Body) -> Option<Live>
    ensures { result ≡ live_by role body.now }
{
    match body {
        Body::Element { attrs, .. } => live_set_by(role, attrs),
        Body::Words { .. } => None,
    }
}
