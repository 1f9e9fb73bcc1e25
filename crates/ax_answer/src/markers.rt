//! The answers to requests about text markers: what is told of them, and of why there is none.
ghost use Rattle.std.specs.Prelude.{◌≡◌, IfOk};
ghost use Rattle.ax_ask.specs.declared.replies.Reply.TheVariants.{Order, Words};
ghost use Rattle.text_marker.specs.Answers.{range_text};
ghost use Rattle.ax_answer.specs.Answers.{told, refusal_reply, mark_reply, span_reply, bounds_reply};

use ax_ask::{Marker, Placing, Reply};
use ax_base::{NoMemory, Rect};
use ax_record::TreeView;
use std::alloc::Global;
use text_marker::{MarkError, range_text};

/// What is told of the order of two markers.
pub(crate) fn told_order(answer: Result<Placing, MarkError>) -> Reply
    ensures { result ≡ told Order answer }
{
    match answer {
        Ok(placing) => Reply::Order(placing),
        Err(fail) => told_refusal(fail),
    }
}

/// What is told of a step from a marker.
pub(crate) fn told_mark(answer: Result<Option<Marker>, MarkError>) -> Reply
    ensures { result ≡ told mark_reply answer }
{
    match answer {
        Ok(Some(at)) => Reply::Mark(at),
        Ok(None) => Reply::Nothing,
        Err(fail) => told_refusal(fail),
    }
}

/// What is told of the line of a marker.
pub(crate) fn told_span(answer: Result<Option<(Marker, Marker)>, MarkError>) -> Reply
    ensures { result ≡ told span_reply answer }
{
    match answer {
        Ok(Some((start, end))) => Reply::Span(start, end),
        Ok(None) => Reply::Nothing,
        Err(fail) => told_refusal(fail),
    }
}

/// What is told of the bounds of a range.
pub(crate) fn told_bounds(answer: Result<Option<Rect>, MarkError>) -> Reply
    ensures { result ≡ told bounds_reply answer }
{
    match answer {
        Ok(Some(bounds)) => Reply::Bounds(bounds),
        Ok(None) => Reply::Nothing,
        Err(fail) => told_refusal(fail),
    }
}

/// What a tree answers to a request for the text of a range.
pub(crate) fn answer_text<T: TreeView>(
    alloc: Global,
    t: &T,
    a: Marker,
    b: Marker,
) -> Result<Reply, NoMemory>
    ensures { IfOk result (λ r. r ≡ told Words (range_text (T.tree t.now) a b)) }
{
    match range_text(alloc, t, a, b) {
        Ok(words) => Ok(Reply::Words(words)),
        Err(MarkError::Stale) => Ok(Reply::Stale),
        Err(MarkError::Out) => Ok(Reply::Out),
        Err(MarkError::Long) => Ok(Reply::Long),
        Err(MarkError::NoMemory) => Err(NoMemory),
    }
}

/// What is told where markers have no answer. The calls whose answers come here take no memory.
fn told_refusal(fail: MarkError) -> Reply
    ensures { result ≡ refusal_reply fail }
{
    match fail {
        MarkError::Stale => Reply::Stale,
        MarkError::Out => Reply::Out,
        MarkError::Long => Reply::Long,
        MarkError::NoMemory => Reply::Nothing,
    }
}
