//! How a node takes part in the tree (WAI-ARIA 1.2, section 7, 'Accessibility Tree').
ghost use Rattle.std.specs.Prelude.{◌≡◌, ◌==◌};
ghost use Rattle.ax_base.specs.Document.{root};
ghost use Rattle.ax_base.specs.Roles as roles;
ghost use Rattle.ax_roles.specs.Inclusion.{inclusion_by, is_object_by};

use crate::node::node_is_ignored;
use ax_base::{Body, ObjId, Role};

/// How a node takes part in the tree.
#[derive(Clone, Copy, Debug, PartialEq, Eq)]
pub enum Inclusion {
    /// It is an object.
    Included,
    /// It is no object, and what would hang on it hangs on what it would hang on itself.
    Ignored,
    /// It is no object, and neither is anything below it.
    Excluded,
}

impl Inclusion {
    /// Whether a node that takes part so is an object.
    pub fn is_object(self) -> bool
        ensures { result ≡ is_object_by self }
    {
        match self {
            Inclusion::Included => true,
            Inclusion::Ignored | Inclusion::Excluded => false,
        }
    }
}

/// How a node of that role takes part, where it is known whether it is out of the tree with all that is below it.
pub fn node_inclusion(id: ObjId, role: Role, node: &Body, out: bool) -> Inclusion
    requires { role ≡ roles.role_of (id == root) node.now }
    ensures { result ≡ inclusion_by out (roles.ignored (record { id = id; body = node.now })) }
{
    if out {
        return Inclusion::Excluded;
    }
    if node_is_ignored(id, role, node) {
        return Inclusion::Ignored;
    }
    Inclusion::Included
}
