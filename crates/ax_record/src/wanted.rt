//! What a walk looks for.
ghost use Rattle.std.specs.Prelude.{◌≡◌, Bool, IfOk};
ghost use Rattle.ax_record.specs.ObjectTrees.{KeepsBounds};
ghost use Rattle.ax_record.specs.declared.record.Record.{Record};

use crate::Record;

/// What a walk looks for. `Error` is what the test may end with, as want of memory; it is `Infallible` where there is
/// no such thing.
pub trait Wanted {
    type Error: Drop;

    ghost wants: { Self → Record → Bool };

    /// Whether this object is wanted. It is one of a tree, so its rectangles are within bounds.
    fn is_wanted(&self, object: &Record) -> Result<bool, Self::Error>
        requires { KeepsBounds object.now }
        ensures { IfOk result (λ is. is ≡ wants self.now object.now) };
}
