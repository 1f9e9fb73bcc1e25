//! Which of two objects comes first in preorder, told by what is above them.
ghost use Rattle.std.specs.Prelude.{◌≡◌, ◌==◌, false, IsTrue, length, nat_lt};
ghost use Rattle.ax_record.specs.ObjectTrees.{IsObjectTree};
ghost use Rattle.ax_record.specs.Orders.{before};
ghost use Rattle.ax_record.specs.Tree.{has_object, kids_of, parent_of, preorder};
ghost use Rattle.text_marker.specs.Ancestors.{ancestor, depth};

use ax_base::ObjId;
use ax_record::TreeView;

/// Whether an object comes before another in preorder. It climbs from both to their lowest common ancestor, with about four
/// look-ups for each level of the deeper one, and goes over the kids of that ancestor up to the first that leads to one of the
/// two. Where one is the ancestor of the other, it comes first, and no kids are looked at. It takes no memory.
pub(crate) fn precedes<T: TreeView>(t: &T, a: ObjId, b: ObjId) -> bool
    requires a_known { IsTrue (has_object (T.tree t.now) a) }
    requires b_known { IsTrue (has_object (T.tree t.now) b) }
    ensures order { result ≡ nat_lt (length (before a (preorder (T.tree t.now)))) (length (before b (preorder (T.tree t.now)))) }
    ensures is_tree { IsObjectTree (T.tree t.now) }
{
    let from_a = depth(t, a);
    let from_b = depth(t, b);
    let one = ancestor(t, a, from_a.saturating_sub(from_b));
    let other = ancestor(t, b, from_b.saturating_sub(from_a));
    if one == other {
        return from_a < from_b;
    }
    precedes_beside(t, one, other)
}

/// Whether one of two objects of the same depth comes before the other in preorder.
fn precedes_beside<T: TreeView>(t: &T, one: ObjId, other: ObjId) -> bool
    requires one_known { IsTrue (has_object (T.tree t.now) one) }
    requires other_known { IsTrue (has_object (T.tree t.now) other) }
    requires level { depth (T.tree t.now) one ≡ depth (T.tree t.now) other }
    requires apart { (one == other) ≡ false }
    ensures { result ≡ nat_lt (length (before one (preorder (T.tree t.now)))) (length (before other (preorder (T.tree t.now)))) }
{
    let mut left = one;
    let mut right = other;
    while let Some(parent) = parent_of(t, left) {
        let Some(beside) = parent_of(t, right) else {
            return false;
        };
        if parent == beside {
            return is_earlier_kid(t, parent, left, right);
        }
        left = parent;
        right = beside;
    }
    false
}

/// How many ancestors an object has.
fn depth<T: TreeView>(t: &T, id: ObjId) -> u32
    requires { IsTrue (has_object (T.tree t.now) id) }
    ensures deep { result ≡ depth (T.tree t.now) id }
    ensures is_tree { IsObjectTree (T.tree t.now) }
{
    let mut count = 0u32;
    let mut at = id;
    while let Some(parent) = parent_of(t, at) {
        count += 1;
        at = parent;
    }
    count
}

/// The object so many levels above one.
fn ancestor<T: TreeView>(t: &T, id: ObjId, levels: u32) -> ObjId
    ensures { result ≡ ancestor (T.tree t.now) levels id }
{
    let mut at = id;
    let mut left = levels;
    while left > 0 {
        let Some(parent) = parent_of(t, at) else {
            return at;
        };
        at = parent;
        left -= 1;
    }
    at
}

/// The parent of an object, or `None` of the root.
fn parent_of<T: TreeView>(t: &T, id: ObjId) -> Option<ObjId>
    ensures value { result ≡ parent_of (T.tree t.now) id }
    ensures is_tree { IsObjectTree (T.tree t.now) }
{
    match t.find(id) {
        Some(object) => object.parent,
        None => None,
    }
}

/// Whether one of two kids of an object stands before the other.
fn is_earlier_kid<T: TreeView>(t: &T, parent: ObjId, one: ObjId, other: ObjId) -> bool
    ensures { result ≡ nat_lt (length (before one (kids_of (T.tree t.now) parent))) (length (before other (kids_of (T.tree t.now) parent))) }
{
    match t.find(parent) {
        Some(object) => stands_before(object.kids.as_slice(), one, other),
        None => false,
    }
}

/// Whether an id stands before another in a list of ids. It goes over the list up to the first of the two.
fn stands_before(ids: &[ObjId], one: ObjId, other: ObjId) -> bool
    ensures { result ≡ nat_lt (length (before one ids.now)) (length (before other ids.now)) }
{
    let mut left = ids;
    while let [first, rest @ ..] = left {
        if *first == other {
            return false;
        }
        if *first == one {
            return true;
        }
        left = rest;
    }
    false
}
