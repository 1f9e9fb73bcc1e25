//! What nodes take over from the nodes above them, kept by node and renewed where it may have changed.
#![tactic(auto)]

mod contexts;
mod kept;
mod renewing;
mod standing;

pub use contexts::{Context, Contexts};
