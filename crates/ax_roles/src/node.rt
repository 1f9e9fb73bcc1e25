//! What a node of a document is by itself.
ghost use Rattle.std.specs.Prelude.{◌≡◌, ◌==◌};
ghost use Rattle.ax_base.specs.Document.{root};
ghost use Rattle.ax_base.specs.Roles.{hides_body, ignored_body};
ghost use Rattle.ax_base.specs.Roles as roles;

use crate::element::{hides, is_ignored, role_of};
use ax_base::{Body, ObjId, Role};

/// The role of a node: of the root document, and of a text that of texts.
pub fn node_role(id: ObjId, node: &Body) -> Role
    ensures { result ≡ roles.role_of (id == root) node.now }
{
    match node {
        Body::Words { .. } => Role::Text,
        Body::Element { tag, attrs, .. } => {
            if id == ObjId::ROOT {
                Role::Document
            } else {
                role_of(tag.as_str(), attrs)
            }
        }
    }
}

/// Whether a node leaves out itself and what is below it; the root never does.
pub fn node_hides(id: ObjId, node: &Body) -> bool
    ensures { result ≡ roles.hides (record { id = id; body = node.now }) }
{
    id != ObjId::ROOT && body_hides(node)
}

fn body_hides(node: &Body) -> bool
    ensures { result ≡ hides_body node.now }
{
    match node {
        Body::Element { tag, attrs, .. } => hides(tag.as_str(), attrs),
        Body::Words { .. } => false,
    }
}

/// Whether a node of that role is left out of the tree, but not what is below it; the root never is.
pub fn node_is_ignored(id: ObjId, role: Role, node: &Body) -> bool
    requires { role ≡ roles.role_of (id == root) node.now }
    ensures { result ≡ roles.ignored (record { id = id; body = node.now }) }
{
    id != ObjId::ROOT && body_is_ignored(role, node)
}

fn body_is_ignored(role: Role, node: &Body) -> bool
    ensures { result ≡ ignored_body role node.now }
{
    match node {
        Body::Element { attrs, .. } => is_ignored(role, attrs),
        Body::Words { chars, .. } => chars.is_blank(),
    }
}
