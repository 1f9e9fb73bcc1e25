//! Want of memory.
ghost use Rattle.std.specs.Prelude.{◌≡◌};
ghost use Rattle.ax_base.specs.declared.memory.NoMemory.{NoMemory};

use std::alloc::{AllocError, AllocFailed};

/// There was no memory left. It is the only error whose occurrence no contract constrains.
#[derive(Clone, Copy, Debug, PartialEq, Eq)]
pub struct NoMemory;

impl From<AllocError> for NoMemory {
    fn from(_: AllocError) -> NoMemory {
        NoMemory
    }
}

impl<T: Drop> From<AllocFailed<T>> for NoMemory {
    fn from(_: AllocFailed<T>) -> NoMemory {
        NoMemory
    }
}
