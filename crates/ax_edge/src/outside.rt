//! A source of bytes and a sink for bytes, each with a count of its faults.
ghost use Rattle.std.specs.Prelude.{List, ℕ, Option};
ghost use Rattle.std.specs.Io.{ReadsAtMost, WritesAtMost};
ghost use Rattle.std.specs.Io.KnownBytes.{ReadConsumes, WriteAppends};
ghost use Rattle.ax_edge.specs.Causes.{HasCause, TakesSome};

/// The outside refused a read or a write. It comes only where the count of faults rose in that call, and a call that
/// succeeds leaves the count as it was.
#[derive(Clone, Copy, Debug, PartialEq, Eq)]
pub struct Failed;

/// Where bytes come from.
pub trait Source {
    /// The bytes that are left, where the source tells them.
    ghost left: { Self → Option (List ℕ) };

    /// How often a read failed. It never falls.
    ghost faults: { Self → ℕ };

    /// Takes bytes from the front of what is left into the front of the buffer, and answers how many.
    ///
    /// Into a buffer that is not empty it takes at least one, and it answers 0 at the end of input
    /// alone. A read that failed took nothing.
    fn read(&mut self, buf: &mut [u8]) -> Result<usize, Failed>
        ensures bound { ReadsAtMost result buf.new }
        ensures bytes { ReadConsumes (left self.old) (left self.new) result buf.new }
        ensures cause { HasCause (faults self.old) (faults self.new) result };
}

/// Where bytes go.
pub trait Sink {
    /// The bytes that went out, where the sink tells them.
    ghost gone: { Self → Option (List ℕ) };

    /// How often a write failed. It never falls.
    ghost faults: { Self → ℕ };

    /// Adds bytes from the front of the piece to what went out, and answers how many.
    ///
    /// Of a piece that is not empty it adds at least one. A write that failed added nothing.
    fn write(&mut self, piece: &[u8]) -> Result<usize, Failed>
        ensures bound { WritesAtMost result piece.now }
        ensures some { TakesSome result piece.now }
        ensures bytes { WriteAppends (gone self.old) (gone self.new) result piece.now }
        ensures cause { HasCause (faults self.old) (faults self.new) result };
}
