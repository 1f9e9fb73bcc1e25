//! The tree of the accessibility thread.
#![tactic(auto)]

mod isolated;
mod records;

pub use isolated::Isolated;
