//! The elements that have an `id`, that refer to it, and that label it, by the text of the `id`.
#![tactic(auto)]

mod after;
mod below;
mod change;
mod changing;
mod index;
mod ordering;
mod references;
mod settling;
mod ways;

pub use index::IdIndex;
