//! Some nodes of a document in an order in which each stands behind its parent.
#![tactic(auto)]

mod ordering;
mod parents;

pub use ordering::from_above;
