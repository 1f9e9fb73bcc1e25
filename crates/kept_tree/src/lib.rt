//! A tree that is kept from flush to flush, and the tree that it becomes.
#![tactic(auto)]

mod kept;
mod sparse;

pub use kept::{KeptTree, RenewedTree};
pub use sparse::FewRecords;
