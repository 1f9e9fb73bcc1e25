//! The line that is written for a refusal.
ghost use Rattle.std.specs.Prelude.{◌≡◌, IfOk, string_bytes};
ghost use Rattle.ax_session.specs.Refusals.{cause_word, refusal_text};

use ax_base::{NoMemory, Text};
use std::alloc::{AllocError, Global};
use story_check::{Cause, Refusal};

/// The line `refused LINE CAUSE`.
pub fn refusal_line(alloc: Global, refusal: Refusal) -> Result<Text, NoMemory>
    ensures { IfOk result (λ text. text ≡ refusal_text refusal) }
{
    Ok(Text::from_string(refusal_string(alloc, refusal)?))
}

#[tactic(auto, unfolding(crate::specs::Refusals::refusal_text))]
fn refusal_string(alloc: Global, refusal: Refusal) -> Result<String, AllocError>
    ensures { IfOk result (λ s. string_bytes s ≡ refusal_text refusal) }
{
    let line = refusal.line;
    let word = cause_word(refusal.cause);
    format!(in alloc; "refused {line} {word}\n")
}

fn cause_word(cause: Cause) -> &'static str
    ensures { result.now ≡ cause_word cause }
{
    match cause {
        Cause::StoryTooLong => "StoryTooLong",
        Cause::NotUtf8 => "NotUtf8",
        Cause::BadJson => "BadJson",
        Cause::BadLine => "BadLine",
        Cause::NoStart => "NoStart",
        Cause::SecondStart => "SecondStart",
        Cause::TooManyFlushes => "TooManyFlushes",
        Cause::TooManyAsks => "TooManyAsks",
        Cause::BadTurns => "BadTurns",
        Cause::AwaitTooFar => "AwaitTooFar",
        Cause::Stuck => "Stuck",
        Cause::NoNode => "NoNode",
        Cause::UsedId => "UsedId",
        Cause::BadPlace => "BadPlace",
        Cause::NotElement => "NotElement",
        Cause::NotText => "NotText",
        Cause::IntoItself => "IntoItself",
        Cause::RootFixed => "RootFixed",
        Cause::TooDeep => "TooDeep",
        Cause::TooMany => "TooMany",
        Cause::BadRuns => "BadRuns",
        Cause::TooLong => "TooLong",
    }
}
