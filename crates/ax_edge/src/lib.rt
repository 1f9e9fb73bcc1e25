//! The outside, as traits: where a program reads from, where it writes to, and who runs its two sides.
#![tactic(auto)]

mod lists;
mod memory;
mod outside;
mod scope;
mod sides;
mod streams;
#[cfg(test)]
mod tests;
mod transfers;

pub use lists::{Bytes, Numbers};
pub use memory::{MemSink, MemSource, SureSource};
pub use outside::{Failed, Sink, Source};
pub use sides::{Gate, Job, LoneSpawner, OpenGate, ScopeSpawner, Spawner};
pub use streams::{StdSink, StdSource};
pub use transfers::{ReadError, read_input, write_whole};
