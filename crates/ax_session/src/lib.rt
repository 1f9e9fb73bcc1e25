//! The commands of the accessibility core, from bytes to bytes, and its run on two threads.
#![tactic(auto)]

mod jobs;
mod play_text;
mod refusals;
mod settling;
mod summary;
mod threads;
mod top;
mod tree_text;
mod words;

pub use ax_world::replay;
pub use settling::settle;
pub use threads::run_threads;
pub use top::{axcore, still_command};
pub use tree_text::dump;
pub use words::{Command, Status, command_of};
