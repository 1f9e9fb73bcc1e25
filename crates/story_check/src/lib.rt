//! Stories: which inputs are one, their lines, the documents of their moments, and whether a line of one could wait for ever.
#![tactic(auto)]

ghost use Rattle.std.specs.Prelude.{◌≡◌, ℕ, ◌≤◌, List};
ghost use Rattle.story_check.specs.declared.story.PageLine.{PageLine};
ghost use Rattle.story_check.specs.Stories.{flushes, cap};

mod acceptance;
mod documents;
mod last;
mod limits;
mod progress;
mod refusals;
mod story;
mod waits;

pub use acceptance::{accept, accept_last};
pub use documents::{base_dom, change, last_dom};
pub use last::LastMoment;
pub use limits::{MAX_CLIENT_LINES, MAX_FLUSHES, MAX_STORY_BYTES, MAX_TURNS};
pub use refusals::{AcceptFail, Cause, Refusal};
pub use story::{ClientLine, PageLine, Story};
pub use waits::stuck;

/// More takes let the page publish no less, and never more than all its flushes.
///
/// It is a law of the definitions, which this call carries.
pub fn takes_help()
    ensures rises { (page : List PageLine) (t u : ℕ) → t ≤ u → cap page t ≤ cap page u }
    ensures most { (page : List PageLine) (t : ℕ) → cap page t ≤ flushes page }
{}
