//! The answer to a search.
ghost use Rattle.std.specs.Prelude.{◌≡◌, IfOk};
ghost use Rattle.ax_answer.specs.Answers.{has_origin, told_ids, answer_search};

use ax_ask::{Reply, SearchRequest};
use ax_base::{Ids, NoMemory, ObjId};
use ax_record::TreeView;
use ax_search::search;
use std::alloc::Global;

/// What a tree answers to a search: `Stale` exactly where it lacks the object from which the search goes on.
pub(crate) fn answer_search<T: TreeView>(
    alloc: Global,
    t: &T,
    r: &SearchRequest,
) -> Result<Reply, NoMemory>
    ensures { IfOk result (λ reply. reply ≡ answer_search (T.tree t.now) r.now) }
{
    if !has_origin(t, r.origin) {
        return Ok(Reply::Stale);
    }
    Ok(told_ids(search(alloc, t, r)?))
}

/// Whether a search goes on from an object of the tree, or from none.
fn has_origin<T: TreeView>(t: &T, origin: Option<ObjId>) -> bool
    ensures { result ≡ has_origin (T.tree t.now) origin }
{
    match origin {
        Some(id) => t.find(id).is_some(),
        None => true,
    }
}

/// What is told of the objects that a search found: that there are none, or their ids.
fn told_ids(ids: Ids) -> Reply
    ensures { result ≡ told_ids ids }
{
    if ids.as_slice().is_empty() {
        Reply::Nothing
    } else {
        Reply::Found(ids)
    }
}
