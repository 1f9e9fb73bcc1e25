//! The text objects of a tree, in the order in which they are read.
#![tactic(auto)]

mod places;
mod steps;

pub use places::place;
pub use steps::{next_text, prior_text};
