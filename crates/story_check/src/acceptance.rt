//! Accepting a story.
ghost use Rattle.std.specs.Prelude.{◌≡◌, ◌≤◌, ◌+◌, length, false, IfOk, IfErr, IfSome, MatchOption};
ghost use Rattle.std.specs.Str.{IsUtf8};
ghost use Rattle.story_check.specs.Moments.{IsAccepted};
ghost use Rattle.story_check.specs.Stories.{Story, stuck};
ghost use Rattle.story_check.specs.Acceptance.{LinesRead, after_lines, pieces, judged, judged_lines, Accepted, AcceptFails, Accepts, IsFirstLine, HasNoLineFeed};
ghost use Rattle.story_check.specs.Holding.{held, told_where, GoesOn};
ghost use Rattle.story_check.specs.Last.{IsLastOf};

use crate::progress::Progress;
use crate::refusals::input_refusal;
use crate::{AcceptFail, Cause, LastMoment, MAX_STORY_BYTES, Story};
use ax_dom::Dom;
use std::alloc::Global;

/// The story of these bytes, or their first refusal. It takes one pass over the lines, and every edit of a story is accepted
/// in the document after all earlier ones and has its rectangles within bounds, and no line of it can wait for ever.
pub fn accept(alloc: Global, bytes: &[u8]) -> Result<Story, AcceptFail>
    ensures value { Accepts result (judged bytes.now) }
    ensures accepted { IfOk result (λ s. IsAccepted s) }
    ensures free { IfOk result (λ s. stuck s ≡ false) }
{
    let (story, _document) = judge(alloc, bytes, true)?;
    Ok(story)
}

/// The last moment of the story of these bytes, or their first refusal, as `accept` has it. It takes one pass over the lines, and
/// keeps no edit: each becomes the document's.
pub fn accept_last(alloc: Global, bytes: &[u8]) -> Result<LastMoment, AcceptFail>
    ensures last { IfOk result (λ last. (story : Story) × Accepted bytes.now story × IsLastOf story last) }
    ensures refused { IfErr result (λ fail. AcceptFails fail (judged bytes.now)) }
{
    let (story, document) = judge(alloc, bytes, false)?;
    Ok(LastMoment {
        flushes: story.flushes(),
        client: story.into_client(),
        document,
    })
}

/// The story of these bytes, which has its edits where they are kept, and the document of its last moment, or their first refusal.
fn judge(alloc: Global, bytes: &[u8], keeps: bool) -> Result<(Story, Dom), AcceptFail>
    ensures { Accepts result (told_where keeps (judged bytes.now)) }
{
    if bytes.len() > MAX_STORY_BYTES {
        return Err(input_refusal(Cause::StoryTooLong));
    }
    match str::from_utf8(bytes) {
        Ok(text) => judge_lines(alloc, text, keeps),
        Err(_) => Err(input_refusal(Cause::NotUtf8)),
    }
}

/// The same for these lines.
fn judge_lines(alloc: Global, text: &str, keeps: bool) -> Result<(Story, Dom), AcceptFail>
    requires short { length text.now ≤ MAX_STORY_BYTES }
    ensures { Accepts result (told_where keeps (judged_lines (pieces text.now))) }
{
    let mut progress = Progress::new(alloc, keeps)?;
    read_lines(alloc, &mut progress, text)?;
    progress.finish(alloc)
}

/// Reads all lines, from the first.
fn read_lines(alloc: Global, progress: &mut Progress, text: &str) -> Result<(), AcceptFail>
    requires short { length text.now ≤ MAX_STORY_BYTES }
    ensures { (p : LinesRead) → progress.old ≡ held progress.old.keeps p → GoesOn result progress.old.keeps progress.new (after_lines 1 p (pieces text.now)) }
{
    let mut rest = text;
    let mut number = 1;
    'lines: while let Some((line, after)) = first_line(rest) {
        progress.step(alloc, number, line)?;
        number += 1;
        rest = after;
    }
    progress.step(alloc, number, rest)
}

/// The first line, and what stands behind its line feed.
fn first_line(text: &str) -> Option<(&str, &str)>
    ensures text { IfSome result (λ parts. IsUtf8 parts.1.now) }
    ensures parts { MatchOption result (HasNoLineFeed text.now) (λ parts. IsFirstLine text.now parts.0.now parts.1.now) }
{
    text.split_once('\n')
}
