//! The search.
ghost use Rattle.std.specs.Prelude.{◌≡◌, IfOk, IfSome, IsTrue, find};
ghost use Rattle.ax_record.specs.Tree.{has_object};
ghost use Rattle.ax_record.specs.ObjectTrees.{IsObjectTree};
ghost use Rattle.ax_record.specs.Orders.{wanted_at};
ghost use Rattle.ax_search.specs.Searches.{candidates, found_among, found};

use crate::sought::{Sought, fold_words};
use ax_ask::SearchRequest;
use ax_base::{Ids, NoMemory, ObjId};
use ax_record::{TreeView, Wanted, first, first_after, last, last_before};
use std::alloc::Global;

/// What a search finds: of the objects behind the origin in preorder or, backward, of those before it in reverse, and
/// without an origin of all, those that are of one of the kinds and whose name holds the words in any case, the first ones
/// up to the limit. The only error is want of memory.
pub fn search<T: TreeView>(alloc: Global, t: &T, r: &SearchRequest) -> Result<Ids, NoMemory>
    requires { IfSome r.now.origin (λ n. IsTrue (has_object (T.tree t.now) n)) }
    ensures { IfOk result (λ ids. ids ≡ found (T.tree t.now) r.now) }
{
    let words = fold_words(alloc, &r.words)?;
    let sought = Sought {
        alloc,
        keys: r.keys.as_slice(),
        words,
    };
    gather(alloc, t, &sought, r.origin, r.backward, r.limit)
}

/// The first wanted objects of a search, up to the limit. From each one it goes on to the next, so it walks no further
/// than to the last one that it tells.
fn gather<T: TreeView, W: Wanted<Error = NoMemory>>(
    alloc: Global,
    t: &T,
    wanted: &W,
    origin: Option<ObjId>,
    backward: bool,
    limit: u8,
) -> Result<Ids, NoMemory>
    requires { IfSome origin (λ n. IsTrue (has_object (T.tree t.now) n)) }
    ensures { IfOk result (λ ids. ids ≡ found_among (wanted_at (T.tree t.now) (W.wants wanted.now)) (candidates (T.tree t.now) origin backward) limit) }
{
    let mut found = Ids::new(alloc);
    let mut at = origin;
    for _ in 0..limit {
        let Some(id) = next_wanted(t, wanted, at, backward)? else {
            return Ok(found);
        };
        found.push(id)?;
        at = Some(id);
    }
    Ok(found)
}

/// The first wanted object from a place on.
fn next_wanted<T: TreeView, W: Wanted<Error = NoMemory>>(
    t: &T,
    wanted: &W,
    at: Option<ObjId>,
    backward: bool,
) -> Result<Option<ObjId>, NoMemory>
    requires { IfSome at (λ n. IsTrue (has_object (T.tree t.now) n)) }
    ensures found { IfOk result (λ found. found ≡ find (wanted_at (T.tree t.now) (W.wants wanted.now)) (candidates (T.tree t.now) at backward)) }
    ensures is_tree { IsObjectTree (T.tree t.now) }
{
    match (at, backward) {
        (None, false) => first(t, wanted),
        (None, true) => last(t, wanted),
        (Some(id), false) => first_after(t, wanted, id),
        (Some(id), true) => last_before(t, wanted, id),
    }
}
