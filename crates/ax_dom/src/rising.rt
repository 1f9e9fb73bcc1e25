//! Ids by rising number.
ghost use Rattle.std.specs.Prelude.{◌≡◌, ◌≤◌, ◌<◌, ℕ, length, slice_index, OnOk, OnErr};
ghost use Rattle.std.specs.List.Sorted.{IsStrictlyIncreasing};
ghost use Rattle.std.specs.Ordering.{nat_cmp};
ghost use Rattle.std.specs.BTreeSet.{insert_key};
ghost use Rattle.ax_dom.specs.Among.{is_in};

use ax_base::{Ids, NoMemory, ObjId};

/// The place of an id among some by rising number: how many are below it. Each look halves what is left.
fn place_among(ids: &[ObjId], id: ObjId) -> usize
    requires rising { IsStrictlyIncreasing ids.now }
    ensures within { result ≤ length ids.now }
    ensures below { (k : ℕ) → k < result → slice_index ids.now k < id }
    ensures above { (k : ℕ) → result ≤ k → k < length ids.now → id ≤ slice_index ids.now k }
{
    let mut from = 0;
    let mut past = ids.len();
    'halve: while from < past {
        let middle = from + (past - from) / 2;
        let at = ids[middle];
        if at.0 < id.0 {
            from = middle + 1;
        } else {
            past = middle;
        }
    }
    from
}

/// Whether an id is among some by rising number. Each look halves what is left.
pub fn is_among(ids: &[ObjId], id: ObjId) -> bool
    requires rising { IsStrictlyIncreasing ids.now }
    ensures { result ≡ is_in ids.now id }
{
    let at = place_among(ids, id);
    if at < ids.len() {
        let found = ids[at];
        return found.0 == id.0;
    }
    false
}

/// Adds an id to some by rising number, at its place, where it is not among them. At an error nothing changes.
pub fn add_rising(ids: &mut Ids, id: ObjId) -> Result<(), NoMemory>
    requires rising { IsStrictlyIncreasing ids.old }
    ensures ok { OnOk result (ids.new ≡ insert_key nat_cmp ids.old id) }
    ensures err { OnErr result (ids.new ≡ ids.old) }
{
    if is_among(ids.as_slice(), id) {
        return Ok(());
    }
    let at = place_among(ids.as_slice(), id);
    ids.insert(at, id)
}
