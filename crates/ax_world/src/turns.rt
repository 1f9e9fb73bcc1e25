//! What turns come to.
use ax_base::Moment;

/// What a turn came to.
#[derive(Clone, Copy, Debug, PartialEq, Eq)]
pub enum Turn {
    /// The side did its next line.
    Did,
    /// Its next line waits for moment `need`, and the other side has come to `have`, which is before it.
    Waiting { need: Moment, have: Moment },
    /// It has no line left.
    Done,
}
