//! Requests to the accessibility tree, replies, transcripts of both, and the texts of replies and transcripts.
#![tactic(auto)]

mod numbers;
mod print;
mod replies;
mod requests;
mod states;
mod transcripts;
mod words;

pub use print::{print_reply, print_transcript};
pub use replies::{Placing, Reply};
pub use requests::{Marker, Request, SearchKey, SearchKeys, SearchRequest};
pub use transcripts::{Entries, Entry, EntryBody, Transcript};
