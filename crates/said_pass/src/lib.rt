//! What each node says, its name and its description, kept by node and renewed where they may have changed.
#![tactic(auto)]

mod host_label;
mod labelledby;
mod names;
mod naming;
mod saids;
mod saying;
mod sources;
mod texts;

pub use saids::Saids;
