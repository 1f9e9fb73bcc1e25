//! The document: a tree of elements and texts, the edits of it, and its readers.
#![tactic(auto)]

mod bodies;
mod cause;
mod cell;
mod dom;
mod edit;
mod node_map;
mod rising;
mod used;

pub use ax_base::Body;
pub use cause::EditCause;
pub use cell::Cell;
pub use dom::Dom;
pub use edit::Edit;
pub use rising::{add_rising, is_among};
