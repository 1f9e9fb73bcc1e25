//! The objects that hang on each node, kept by node and renewed where they may have changed.
#![tactic(auto)]

mod children;
mod kept;
mod renewing;
mod stamps;

pub use children::Kids;
