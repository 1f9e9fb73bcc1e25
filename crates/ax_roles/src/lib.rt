//! The roles of elements, and what a role or an element decides by itself. No call takes memory or refuses.
//! The definitions are those of `Roles.antt`, `KnownRoles.antt` and `NamedRoles.antt` in ax_base/specs.
#![tactic(auto)]

mod element;
mod implicit_role;
mod inclusion;
mod node;
mod role_attribute;
mod role_traits;

pub use element::{focusable_of, hides, is_ignored, role_of};
pub use inclusion::{Inclusion, node_inclusion};
pub use node::{node_hides, node_is_ignored, node_role};
pub use role_traits::{name_prohibited, names_from_content, prunes};
