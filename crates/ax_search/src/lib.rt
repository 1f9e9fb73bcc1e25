//! The search over the objects of a tree.
#![tactic(auto)]

mod gather;
mod keys;
mod sought;

pub use gather::search;
