//! The page's worker, which runs on the page thread: it edits its live tree, publishes each flush, and waits by looking.
#![tactic(auto)]

mod ends;
mod work;

pub use ends::PageEnd;
pub use work::page_work;
