//! What the slot of the lock holds.
use change_log::ChangeLog;
use story_check::Story;
use turn_word::Content;

/// The slot holds the log of the moments that are published and not taken, and no more may be published than the story's
/// waits allow.
pub struct Spans;

impl Content<ChangeLog, Story> for Spans {
    ghost use Rattle.ax_port.specs.Spans.{IsSpan, IsWithinCap};

    ghost right = { IsSpan };

    ghost allowed = { IsWithinCap };
}
