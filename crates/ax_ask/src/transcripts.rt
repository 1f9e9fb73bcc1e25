//! What an accessibility client was told, in order.

use crate::Reply;
use ax_base::{Moment, Notices, Sequence};

/// What a line of the client came to.
#[derive(Drop)]
pub enum EntryBody {
    /// A request was answered.
    Reply(Reply),
    /// The client waited for a moment, and took it.
    Await,
    /// The client heard how many moments are out, and took none.
    Hear,
    /// The notices since they were last told.
    Notices(Notices),
}

/// An entry: the number of the client's line, from 1 on, the moment that it is about, and what it came to.
#[derive(Drop)]
pub struct Entry {
    pub number: u32,
    pub moment: Moment,
    pub body: EntryBody,
}

/// Some entries, in order. A clause sees them as a list.
pub type Entries = Sequence<Entry>;

/// A transcript: its entries, and the number of flushes of the whole story.
#[derive(Drop)]
pub struct Transcript {
    pub entries: Entries,
    pub flushes: u32,
}
