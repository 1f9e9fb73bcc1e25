//! The core machine: a page and a client that take turns.
#![tactic(auto)]

ghost use Rattle.std.specs.Prelude.{◌≡◌, ℕ, ◌+◌, ◌<◌, ◌≤◌, List, ◌++◌, false};
ghost use Rattle.story_check.specs.Stories.{Story, cap, stuck};
ghost use Rattle.ax_base.specs.declared.ids.Who.{Who};
ghost use Rattle.ax_answer.specs.Legal.{IsLegalSoFar, IsLegalTranscript};
ghost use Rattle.ax_world.specs.Machine.{start, after_turns, alternate, lines_done, IsOver, played, transcript_of};

mod turns;
mod world;

pub use turns::Turn;
pub use world::{World, play_in_turns, replay};

/// After every list of turns the page has published no more than it may, and the client's entries are legal.
///
/// It is a law of the definitions, which this call carries.
pub fn turns_are_legal()
    ensures published { (s : Story) (turns : List Who) → (after_turns s turns start).published ≤ cap s.page (after_turns s turns start).taken }
    ensures legal { (s : Story) (turns : List Who) → IsLegalSoFar s (after_turns s turns start).client_done (after_turns s turns start).entries }
{}

/// A story that is not stuck is played to its end: two alternate turns do a line until both sides are done, and further
/// turns change nothing.
///
/// It is a law of the definitions, which this call carries.
pub fn playing_ends()
    ensures moves { (s : Story) (turns : List Who) → stuck s ≡ false → (IsOver s (after_turns s turns start) → ⊥) → lines_done (after_turns s turns start) < lines_done (after_turns s (turns ++ alternate 1) start) }
    ensures ends { (s : Story) → stuck s ≡ false → IsOver s (played s) }
    ensures legal { (s : Story) → stuck s ≡ false → IsLegalTranscript s (transcript_of s) }
    ensures same { (s : Story) (n : ℕ) → stuck s ≡ false → IsOver s (after_turns s (s.turns ++ alternate n) start) → after_turns s (s.turns ++ alternate n) start ≡ played s }
{}
