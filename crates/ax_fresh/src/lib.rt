//! The tree of a document, built whole.
#![tactic(auto)]

mod content;
mod focus;
mod frames;
mod parts;
mod uncounted;
mod walk;

pub use content::{Called, record_called, record_of};
pub use parts::RecordParts;
pub use uncounted::tree_of;
pub use walk::build;
