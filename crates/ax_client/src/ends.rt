//! How the client's worker ends.
use ax_ask::Transcript;
use ax_base::{Moment, NoMemory};

/// How the client's worker ends.
#[derive(Drop)]
pub enum ClientEnd {
    /// All lines of the client are done, and this is what they came to.
    Done(Transcript),
    /// There was no memory left.
    NoMemory,
    /// A line waits until moment `need` is published, and the page is over at `have`, which is less.
    Ended { need: Moment, have: Moment },
}

impl From<NoMemory> for ClientEnd {
    ghost use Rattle.std.specs.Prelude.{◌≡◌};
    ghost use Rattle.ax_client.specs.declared.ends.ClientEnd.{ClientEnd};

    ghost from_gives = { λ cause end. end ≡ ClientEnd.NoMemory };

    fn from(_: NoMemory) -> ClientEnd {
        ClientEnd::NoMemory
    }
}
