//! The text of a story that is played.
ghost use Rattle.std.specs.Prelude.{◌≡◌, false, IfOk};
ghost use Rattle.story_check.specs.Stories.{stuck};
ghost use Rattle.story_check.specs.Moments.{IsAccepted};
ghost use Rattle.ax_session.specs.Texts.{replay_text};

use crate::replay;
use ax_ask::print_transcript;
use ax_base::{NoMemory, Text};
use std::alloc::Global;
use story_check::Story;

/// What `replay` writes of a story: a line for each line of its client, those of its notices, and then `end` and the number
/// of its flushes.
#[tactic(auto, unfolding(crate::specs::Texts::replay_text))]
pub fn replay_text(alloc: Global, story: &Story) -> Result<Text, NoMemory>
    requires free { stuck story.now ≡ false }
    requires accepted { IsAccepted story.now }
    ensures { IfOk result (λ text. text ≡ replay_text story.now) }
{
    let transcript = replay(alloc, story)?;
    print_transcript(alloc, &transcript)
}
