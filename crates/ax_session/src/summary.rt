//! How much a generated story comes to.
ghost use Rattle.std.specs.Prelude.{◌≡◌, ◌++◌, false, IfOk, OnOk, string_bytes};
ghost use Rattle.story_check.specs.Stories.{stuck};
ghost use Rattle.story_check.specs.Moments.{IsAccepted};
ghost use Rattle.ax_session.specs.Texts.{count_line, summary_text};

use crate::play_text::replay_text;
use ax_base::{NoMemory, Text};
use std::alloc::Global;
use std::fmt::Write;
use story_check::Story;

/// What `gen` writes of a story: the number of its client's lines, that of its moments, and how many bytes `replay` would
/// write of it.
#[tactic(auto, unfolding(crate::specs::Texts::summary_text))]
pub fn summary_text(alloc: Global, story: &Story) -> Result<Text, NoMemory>
    requires free { stuck story.now ≡ false }
    requires accepted { IsAccepted story.now }
    ensures { IfOk result (λ text. text ≡ summary_text story.now) }
{
    let play = replay_text(alloc, story)?;
    let mut out = String::new(alloc);
    push_count(&mut out, "replies ", story.client().len())?;
    push_count(&mut out, "moments ", story.flushes() as usize)?;
    push_count(&mut out, "bytes ", play.as_str().len())?;
    Ok(Text::from_string(out))
}

/// Adds a line of a label and a number.
fn push_count(out: &mut String, label: &str, count: usize) -> Result<(), NoMemory>
    ensures { OnOk result (string_bytes out.new ≡ string_bytes out.old ++ count_line label.now count) }
{
    write!(out, "{label}{count}\n")?;
    Ok(())
}
