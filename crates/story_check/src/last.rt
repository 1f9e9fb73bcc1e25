//! The last moment of a story.
use crate::ClientLine;
use ax_dom::Dom;

/// The last moment of a story, and the lines of its client.
#[derive(Drop)]
pub struct LastMoment {
    /// The number of flushes of the page, which is the number of the moment.
    pub flushes: u32,
    /// The lines of the client.
    pub client: Vec<ClientLine>,
    /// The document of the moment.
    pub document: Dom,
}
