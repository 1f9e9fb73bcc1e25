//! A tree that follows its document.
#![tactic(auto)]

mod hosts;
mod live;
mod passes;
mod renewing;
mod whole;

pub use live::{Flushed, LiveTree, flush_uncounted};
