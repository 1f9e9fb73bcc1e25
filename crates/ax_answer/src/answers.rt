//! The answer to a request.
ghost use Rattle.std.specs.Prelude.{◌≡◌, ◌≤◌, length, IfOk};
ghost use Rattle.ax_answer.specs.Answers.{asked_object, answer_of, answer_whole, answer, children_from};

use crate::markers::{answer_text, told_bounds, told_mark, told_order, told_span};
use crate::searches::answer_search;
use ax_ask::{Reply, Request};
use ax_base::{Ids, NoMemory, ObjId};
use ax_record::{Record, TreeView};
use hit_test::hit;
use std::alloc::Global;
use text_marker::{compare, line_range, next_char, next_word, prev_char, range_bounds};

/// What a tree answers to a request. It answers `Stale` exactly where the tree lacks an object or the object of a marker that
/// the request names, and else `Out` exactly where a marker stands in no text or past its end. The only error is want of
/// memory for a text, for ids or for a search.
#[tactic(auto, using(ax_record::proofs::FewKids::few_of))]
pub fn answer<T: TreeView>(alloc: Global, t: &T, q: &Request) -> Result<Reply, NoMemory>
    ensures { IfOk result (λ r. r ≡ answer (T.tree t.now) q.now) }
{
    let Some(id) = asked_object(q) else {
        return answer_whole(alloc, t, q);
    };
    match t.find(id) {
        None => Ok(Reply::Stale),
        Some(object) => answer_of(alloc, object, q),
    }
}

/// The object that a request is about.
fn asked_object(q: &Request) -> Option<ObjId>
    ensures { result ≡ asked_object q.now }
{
    match q {
        Request::Role(id)
        | Request::Name(id)
        | Request::Description(id)
        | Request::Value(id)
        | Request::States(id)
        | Request::Level(id)
        | Request::Live(id)
        | Request::Frame(id)
        | Request::Parent(id)
        | Request::Children(id, _) => Some(*id),
        Request::Root
        | Request::Focus
        | Request::Compare(_, _)
        | Request::NextChar(_)
        | Request::PrevChar(_)
        | Request::NextWord(_)
        | Request::LineAt(_)
        | Request::TextOf(_, _)
        | Request::BoundsOf(_, _)
        | Request::Search(_)
        | Request::Hit(_, _) => None,
    }
}

/// What a tree answers to a request that is about no object of its own.
fn answer_whole<T: TreeView>(alloc: Global, t: &T, q: &Request) -> Result<Reply, NoMemory>
    ensures { IfOk result (λ r. r ≡ answer_whole (T.tree t.now) q.now) }
{
    match q {
        Request::Root => Ok(Reply::Root(t.root())),
        Request::Focus => match t.focus() {
            Some(id) => Ok(Reply::Focus(id)),
            None => Ok(Reply::Nothing),
        },
        Request::Role(_)
        | Request::Name(_)
        | Request::Description(_)
        | Request::Value(_)
        | Request::States(_)
        | Request::Level(_)
        | Request::Live(_)
        | Request::Frame(_)
        | Request::Parent(_)
        | Request::Children(_, _) => Ok(Reply::Nothing),
        Request::Compare(a, b) => Ok(told_order(compare(t, *a, *b))),
        Request::NextChar(at) => Ok(told_mark(next_char(t, *at))),
        Request::PrevChar(at) => Ok(told_mark(prev_char(t, *at))),
        Request::NextWord(at) => Ok(told_mark(next_word(t, *at))),
        Request::LineAt(at) => Ok(told_span(line_range(t, *at))),
        Request::TextOf(a, b) => answer_text(alloc, t, *a, *b),
        Request::BoundsOf(a, b) => Ok(told_bounds(range_bounds(t, *a, *b))),
        Request::Search(search) => answer_search(alloc, t, search),
        Request::Hit(x, y) => match hit(t, *x, *y) {
            Some(id) => Ok(Reply::Hit(id)),
            None => Ok(Reply::Nothing),
        },
    }
}

/// What the record of an object answers to a request about it.
fn answer_of(alloc: Global, object: &Record, q: &Request) -> Result<Reply, NoMemory>
    requires few { length object.now.kids ≤ 65537 }
    ensures { IfOk result (λ r. r ≡ answer_of object.now q.now) }
{
    Ok(match q {
        Request::Role(_) => Reply::Role(object.role),
        Request::Name(_) => Reply::Name(object.name.copy(alloc)?),
        Request::Description(_) => Reply::Description(object.description.copy(alloc)?),
        Request::Value(_) => match &object.value {
            Some(value) => Reply::Value(value.copy(alloc)?),
            None => Reply::Nothing,
        },
        Request::States(_) => Reply::States(object.states),
        Request::Level(_) => match object.level {
            Some(level) => Reply::Level(level),
            None => Reply::Nothing,
        },
        Request::Live(_) => Reply::Live(object.live),
        Request::Frame(_) => Reply::Frame(object.frame),
        Request::Parent(_) => match object.parent {
            Some(id) => Reply::Parent(id),
            None => Reply::Nothing,
        },
        Request::Children(_, from) => {
            let kids = object.kids.as_slice();
            Reply::Children(count_of(kids), children_from(alloc, kids, *from)?)
        }
        Request::Root
        | Request::Focus
        | Request::Compare(_, _)
        | Request::NextChar(_)
        | Request::PrevChar(_)
        | Request::NextWord(_)
        | Request::LineAt(_)
        | Request::TextOf(_, _)
        | Request::BoundsOf(_, _)
        | Request::Search(_)
        | Request::Hit(_, _) => Reply::Nothing,
    })
}

/// How many children there are.
fn count_of(kids: &[ObjId]) -> u32
    requires { length kids.now ≤ 65537 }
    ensures { result ≡ length kids.now }
{
    kids.len() as u32
}

/// The children from a place on, counted from 0, up to 256 of them.
fn children_from(alloc: Global, kids: &[ObjId], from: u32) -> Result<Ids, NoMemory>
    ensures { IfOk result (λ ids. ids ≡ children_from from kids.now) }
{
    let rest = &kids[kids.len().min(from as usize)..];
    let shown = &rest[..rest.len().min(256)];
    Ok(Ids::from_vec(Vec::from_slice(alloc, shown)?))
}
