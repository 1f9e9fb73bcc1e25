//! How the page's worker ends.
use ax_base::{Moment, NoMemory};

/// How the page's worker ends.
#[derive(Clone, Copy, Debug, PartialEq, Eq)]
pub enum PageEnd {
    /// All lines of the page are done.
    Done,
    /// There was no memory left.
    NoMemory,
    /// A line waits until the client has taken moment `need`, and the client is over at `have`, which is less.
    Ended { need: Moment, have: Moment },
}

impl From<NoMemory> for PageEnd {
    ghost use Rattle.std.specs.Prelude.{◌≡◌};
    ghost use Rattle.page_thread.specs.declared.ends.PageEnd.{PageEnd};

    ghost from_gives = { λ cause end. end ≡ PageEnd.NoMemory };

    fn from(_: NoMemory) -> PageEnd {
        PageEnd::NoMemory
    }
}
