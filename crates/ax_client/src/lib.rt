//! The client's worker, which runs on the accessibility thread: it takes what is published, patches its own tree, and answers
//! from that tree alone.
#![tactic(auto)]

mod ends;
mod lines;
mod steps;
mod work;

pub use ends::ClientEnd;
pub use work::client_work;
