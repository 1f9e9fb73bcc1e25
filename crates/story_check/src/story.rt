//! The lines of a story.
ghost use Rattle.std.specs.Prelude.{◌≡◌, ◌≤◌, ◌+◌, ◌↔◌, length, IsSome, IfSome};
ghost use Rattle.story_check.specs.Stories.{flushes};

use crate::{MAX_CLIENT_LINES, MAX_FLUSHES};
use ax_ask::Request;
use ax_base::{Moment, Who};
use ax_dom::Edit;
use std::marker::Model;

/// A line of the page.
#[derive(Drop)]
pub enum PageLine {
    /// Edit the document.
    Change(Edit),
    /// Publish what has changed.
    Flush,
    /// Wait until the client has taken that moment.
    Until(Moment),
}

/// A line of the client.
#[derive(Drop)]
pub enum ClientLine {
    /// Take all that is published, and answer from there.
    Ask(Request),
    /// Answer from the moment that was taken last.
    Again(Request),
    /// Look how many moments are published, and take none.
    Hear,
    /// Wait until that moment is published, and take it.
    Await(Moment),
    /// Tell the notices since they were last told.
    Notices,
}

/// A story: the edits before its start, the lines of each side, and the turns to play. Contracts see its parts as lists.
#[derive(Drop)]
pub struct Story {
    base: Vec<Edit>,
    page: Vec<PageLine>,
    client: Vec<ClientLine>,
    turns: Vec<Who>,
    count: u32,
}

impl Model for Story {
    ghost use Rattle.std.specs.Prelude.{◌≡◌, ◌≤◌, ◌+◌, length};
    ghost use Rattle.story_check.specs.declared.limits.TheConstants.{MAX_CLIENT_LINES, MAX_FLUSHES};
    ghost use Rattle.story_check.specs.Stories.{Story, flushes};

    ghost Value = { Story };

    ghost view = { λ s. record { base = s.base.items; page = s.page.items; client = s.client.items; turns = s.turns.items } };

    ghost invariant = { λ s. (flushes s.page.items ≡ s.count) × (flushes s.page.items ≤ MAX_FLUSHES + 1) × (length s.client.items ≤ MAX_CLIENT_LINES) };
}

impl Story {
    /// A story of these parts, or `None` where it has too many flushes or lines of the client.
    pub fn new(
        base: Vec<Edit>,
        page: Vec<PageLine>,
        client: Vec<ClientLine>,
        turns: Vec<Who>,
    ) -> Option<Story>
        ensures few { IsSome result ↔ ((flushes page.items ≤ MAX_FLUSHES + 1) × (length client.items ≤ MAX_CLIENT_LINES)) }
        ensures value { IfSome result (λ s. s ≡ record { base = base.items; page = page.items; client = client.items; turns = turns.items }) }
    {
        if client.len() > MAX_CLIENT_LINES {
            return None;
        }
        let mut count = 0;
        for line in page.iter() {
            if let PageLine::Flush = line {
                if count == MAX_FLUSHES + 1 {
                    return None;
                }
                count += 1;
            }
        }
        Some(Story {
            base,
            page,
            client,
            turns,
            count,
        })
    }

    /// The edits before the start.
    pub fn base(&self) -> &[Edit]
        ensures { result.now ≡ self.now.base }
    {
        self.base.as_slice()
    }

    /// The lines of the page.
    pub fn page(&self) -> &[PageLine]
        ensures is { result.now ≡ self.now.page }
        ensures most { flushes self.now.page ≤ MAX_FLUSHES + 1 }
    {
        self.page.as_slice()
    }

    /// The lines of the client.
    pub fn client(&self) -> &[ClientLine]
        ensures is { result.now ≡ self.now.client }
        ensures most { length self.now.client ≤ MAX_CLIENT_LINES }
    {
        self.client.as_slice()
    }

    /// The lines of the client as a `Vec`. It takes no memory.
    pub fn into_client(self) -> Vec<ClientLine>
        ensures { result.items ≡ self.client }
    {
        self.client
    }

    /// The turns to play first.
    pub fn turns(&self) -> &[Who]
        ensures { result.now ≡ self.now.turns }
    {
        self.turns.as_slice()
    }

    /// The number of flushes of the page.
    pub fn flushes(&self) -> u32
        ensures is { result ≡ flushes self.now.page }
        ensures most { flushes self.now.page ≤ MAX_FLUSHES + 1 }
    {
        self.count
    }
}
