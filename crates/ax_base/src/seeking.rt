//! Searches of long lists of ids.
ghost use Rattle.std.specs.Prelude.{◌≡◌, ◌==◌, ◌≤◌, ◌<◌, ◌+◌, false, length, take, drop, slice_index};
ghost use Rattle.std.specs.List.{list_any};

use crate::ObjId;

/// How many ids are compared between two looks at the outcome. Within a block no comparison depends on another, so that
/// the compiler can make several at once.
const BLOCK: usize = 64;

/// The first place, from `from` on, at which a list has an id, or the list's length where there is none.
pub fn first_place(ids: &[ObjId], from: usize, id: ObjId) -> usize
    requires start { from ≤ length ids.now }
    ensures from { from ≤ result }
    ensures within { result ≤ length ids.now }
    ensures before { list_any (λ x. x == id) (take from ids.now) ≡ false → list_any (λ x. x == id) (take result ids.now) ≡ false }
    ensures here { result < length ids.now → slice_index ids.now result ≡ id }
{
    let start = past_blocks(ids, from, id);
    for at in start..ids.len() {
        let x = ids[at];
        if x.0 == id.0 {
            return at;
        }
    }
    ids.len()
}

/// A place, from `from` on, before which a list does not have an id: whole blocks without it are passed over.
fn past_blocks(ids: &[ObjId], from: usize, id: ObjId) -> usize
    requires start { from ≤ length ids.now }
    ensures from { from ≤ result }
    ensures within { result ≤ length ids.now }
    ensures before { list_any (λ x. x == id) (take from ids.now) ≡ false → list_any (λ x. x == id) (take result ids.now) ≡ false }
{
    let mut at = from;
    while ids.len() - at >= BLOCK && !is_in_block(&ids[at..at + BLOCK], id) {
        at += BLOCK;
    }
    at
}

/// Whether a block has an id.
fn is_in_block(block: &[ObjId], id: ObjId) -> bool
    ensures { result ≡ list_any (λ x. x == id) block.now }
{
    let mut found = false;
    for x in block {
        found |= x.0 == id.0;
    }
    found
}
