//! Why a call on markers has no answer.
ghost use Rattle.std.specs.Prelude.{◌≡◌};

use ax_base::NoMemory;
use thiserror::Error;

/// Why a call on markers has no answer. `Stale` goes before `Out`, and both before all else.
#[derive(Clone, Copy, Debug, PartialEq, Eq, Error)]
pub enum MarkError {
    /// The tree lacks the object of a marker.
    #[error("the tree lacks the object of a marker")]
    Stale,
    /// The object of a marker is no text, or the marker stands past its end.
    #[error("a marker stands in no text, or past its end")]
    Out,
    /// The text of a range has more than 4,096 characters.
    #[error("the text of the range has more than 4,096 characters")]
    Long,
    /// There was no memory left.
    #[error("out of memory")]
    NoMemory,
}

impl From<NoMemory> for MarkError {
    ghost use Rattle.std.specs.Prelude.{◌≡◌};
    ghost use Rattle.text_marker.specs.declared.errors.MarkError.TheVariants.{NoMemory as OutOfMemory};

    ghost from_gives = { λ _ e. e ≡ OutOfMemory };

    fn from(_: NoMemory) -> MarkError {
        MarkError::NoMemory
    }
}
