//! What a tree answers to the requests of an accessibility client.
#![tactic(auto)]

mod answers;
mod markers;
mod searches;

pub use answers::answer;
