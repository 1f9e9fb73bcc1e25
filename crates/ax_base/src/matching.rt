//! Where two lists of ids differ.
ghost use Rattle.std.specs.Prelude.{◌≡◌, ◌≤◌, ◌-◌, ℕ, false, length, take, drop, Contains};
ghost use Rattle.ax_base.specs.Splices.{AreSharedBut};

use crate::ObjId;

/// So many ids are compared at once.
const BLOCK: usize = 64;

/// Where a list differs from another: the elements before the first place are the first of the other list, and those from the
/// second place on are in the other list too. Where the two are the same, both places are the length of the list. It compares
/// them from both ends.
pub fn differing(ids: &[ObjId], others: &[ObjId]) -> (usize, usize)
    ensures { AreSharedBut result.0 result.1 ids.now others.now }
{
    let start = same_start(ids, others);
    let end = same_end(ids, others, start);
    (start, end)
}

/// Whether two lists of the same length differ. It looks at each element and never ends early, so that a compiler can compare
/// several at once.
fn are_apart(ids: &[ObjId], others: &[ObjId]) -> bool
    requires { length ids.now ≡ length others.now }
    ensures { result ≡ false → ids.now ≡ others.now }
{
    let mut apart = false;
    for at in 0..ids.len() {
        apart |= ids[at] != others[at];
    }
    apart
}

/// How far two lists are the same from their start on.
fn same_start(ids: &[ObjId], others: &[ObjId]) -> usize
    ensures within { result ≤ length ids.now }
    ensures same { take result ids.now ≡ take result others.now }
{
    let most = ids.len().min(others.len());
    for at in same_blocks(ids, others)..most {
        if ids[at] != others[at] {
            return at;
        }
    }
    most
}

/// How far two lists are the same from their start on, in whole blocks.
fn same_blocks(ids: &[ObjId], others: &[ObjId]) -> usize
    ensures within { result ≤ length ids.now }
    ensures other { result ≤ length others.now }
    ensures same { take result ids.now ≡ take result others.now }
{
    let most = ids.len().min(others.len());
    let mut at = 0;
    'equal: while BLOCK <= most - at {
        if are_apart(&ids[at..at + BLOCK], &others[at..at + BLOCK]) {
            return at;
        }
        at += BLOCK;
    }
    at
}

/// From where on a list is the same as another to their ends, no earlier than some place.
fn same_end(ids: &[ObjId], others: &[ObjId], start: usize) -> usize
    requires { start ≤ length ids.now }
    ensures order { start ≤ result }
    ensures within { result ≤ length ids.now }
    ensures shared { (n : ℕ) → Contains (drop result ids.now) n → Contains others.now n }
{
    let most = (ids.len() - start).min(others.len());
    for done in same_blocks_behind(ids, others, most)..most {
        let at = ids.len() - 1 - done;
        if ids[at] != others[others.len() - 1 - done] {
            return at + 1;
        }
    }
    ids.len() - most
}

/// How many elements of two lists, of so many at most, are the same from their ends on, in whole blocks.
fn same_blocks_behind(ids: &[ObjId], others: &[ObjId], most: usize) -> usize
    requires here { most ≤ length ids.now }
    requires other { most ≤ length others.now }
    ensures within { result ≤ most }
    ensures shared { (n : ℕ) → Contains (drop (length ids.now - result) ids.now) n → Contains others.now n }
{
    let mut done = 0;
    'equal: while BLOCK <= most - done {
        let (end, other_end) = (ids.len() - done, others.len() - done);
        if are_apart(
            &ids[end - BLOCK..end],
            &others[other_end - BLOCK..other_end],
        ) {
            return done;
        }
        done += BLOCK;
    }
    done
}
