//! Who runs the two sides of the core, and who is told of each turn.
ghost use Rattle.std.specs.Prelude.{IfSome, IsSome, IsTrue};

use crate::scope::in_scope;
use ax_base::Who;
use std::sync::Wait;
use std::thread::Threads;

/// Is told of each turn of a worker before it is done. A gate that needs the runtime, to wait, keeps
/// a reference to it in a field.
pub trait Gate {
    /// Turns count from 1 for each side. Waiting inside one line is one turn.
    fn at(&self, who: Who, turn: u32);
}

/// Does nothing.
#[derive(Clone, Copy, Debug)]
pub struct OpenGate;

impl Gate for OpenGate {
    fn at(&self, _who: Who, _turn: u32) {}
}

/// Work with a condition, and a relation between the job and its answer.
pub trait Job: Drop {
    /// What the work comes to.
    type Out: Drop;

    /// When the job may be run.
    ghost ready: { Self → Type 0 };

    /// Which answers the job allows.
    ghost gives: { Self → Self.Out → Type 0 };

    /// Does the work. It may wait.
    fn run<R: Wait>(self, rt: &R) -> Self::Out
        requires { ready self }
        ensures { gives self result };
}

/// Runs two jobs beside each other, or neither.
pub trait Spawner {
    /// Holds where a thread may be started.
    ghost may_start: { Self → Type 0 };

    /// Whether a thread is to be started now. `false` gives both jobs up.
    fn starts(&mut self) -> bool
        ensures { IsTrue result → may_start self.old };

    /// Runs the page's job on the caller's thread and the client's job beside it, and answers both
    /// results.
    ///
    /// `None` is no error: it gives both jobs up, and promises nothing of them.
    final fn pair<R: Threads + Wait + Sync, P: Job, C: Job + Send>(
        &mut self,
        rt: &R,
        page: P,
        client: C,
    ) -> Option<(P::Out, C::Out)>
    where
        C::Out: Send,
        requires page { P.ready page }
        requires client { C.ready client }
        ensures page { IfSome result (λ outs. P.gives page outs.0) }
        ensures client { IfSome result (λ outs. C.gives client outs.1) }
        ensures started { IsSome result → may_start self.old }
    {
        if self.starts() {
            in_scope(rt, page, client)
        } else {
            None
        }
    }
}

/// Starts the client's job in a thread of a scope. `pair` answers `None` only where the machine
/// refuses the thread, and then neither job has run.
#[derive(Clone, Copy, Debug)]
pub struct ScopeSpawner;

impl Spawner for ScopeSpawner {
    ghost may_start = { λ _. Unit {0} };

    fn starts(&mut self) -> bool
        ensures { IsTrue result }
    {
        true
    }
}

/// Starts nothing: `pair` always answers `None`.
#[derive(Clone, Copy, Debug)]
pub struct LoneSpawner;

impl Spawner for LoneSpawner {
    ghost may_start = { λ _. ⊥ };

    fn starts(&mut self) -> bool {
        false
    }
}
