//! The ids at which trees can differ.
ghost use Rattle.std.specs.Prelude.{◌≡◌, ◌++◌, ℕ, true, Contains, IfOk, OnOk};
ghost use Rattle.std.specs.List.{flat_map};
ghost use Rattle.ax_base.specs.Document.{Document, has};
ghost use Rattle.ax_base.specs.Trees.{IsTree};
ghost use Rattle.ax_dom.specs.Among.{IsClosedUp};
ghost use Rattle.ax_record.specs.Records.{tree};
ghost use Rattle.kids_pass.specs.Kids.{AreKidsOf};
ghost use Rattle.ax_notice.specs.Candidates.{AreCandidates};
ghost use Rattle.tree_diff.specs.Alike.{AreAlikeBut};
ghost use Rattle.tree_diff.specs.Candidates.{candidates, moved_kids, IsSortedFrom, HaveAllDiffering};
ghost use Rattle.tree_diff.specs.Lost.{lost, lost_within, given_within};

use crate::moved::kids_before;
use ax_base::{Ids, NoMemory, ObjId, differing};
use ax_dom::Dom;
use ax_record::TreeView;
use kids_pass::Kids;

/// How far below an object those that are gone are sought. No object is deeper.
const LEVELS: u32 = 128;

/// The ids at which the tree of a document can differ from the one before, rising, where each node that is not among
/// some is as it was: these nodes, the objects that hang on these but hung elsewhere before, which are `moved`, and what
/// hung below these and is gone. All that is gone hung below one of `turned`. It reads no node. Of what hung on one of
/// `turned` it looks only those up that stand between the first and the last difference from `kids`, and it sorts what it
/// found.
pub fn candidates<T: TreeView>(
    before: &T,
    now: &Dom,
    kids: &Kids,
    nodes: &[ObjId],
    turned: &[ObjId],
    moved: Ids,
) -> Result<Ids, NoMemory>
    requires kids { AreKidsOf now.now kids.now }
    requires gone { flat_map (lost (T.tree before.now) now.now) turned.now ≡ flat_map (lost (T.tree before.now) now.now) nodes.now }
    requires moved { moved ≡ flat_map (moved_kids (T.tree before.now) now.now nodes.now) nodes.now }
    requires closed { IsClosedUp now.now nodes.now }
    ensures value { IfOk result (λ ids. IsSortedFrom (candidates (T.tree before.now) now.now nodes.now) ids) }
    ensures differ { IfOk result (λ ids. (old : Document) → IsTree old → T.tree before.now ≡ tree old → AreAlikeBut old now.now nodes.now → HaveAllDiffering (T.tree before.now) (tree now.now) ids) }
    ensures told { IfOk result (λ ids. (old : Document) → IsTree old → T.tree before.now ≡ tree old → AreAlikeBut old now.now nodes.now → AreCandidates (T.tree before.now) (tree now.now) ids) }
{
    now.keeps_tree();
    let mut found = moved;
    push_lost_of(before, now, kids, turned, &mut found)?;
    push_all(nodes, &mut found)?;
    let sorted = sorted_once(found);
    Ok(sorted)
}

/// Adds some ids at the end of others.
fn push_all(ids: &[ObjId], out: &mut Ids) -> Result<(), NoMemory>
    ensures { OnOk result (out.new ≡ out.old ++ ids.now) }
{
    for id in ids {
        out.push(*id)?;
    }
    Ok(())
}

/// The ids of a list, rising, each once.
pub fn sorted_once(ids: Ids) -> Ids
    ensures { IsSortedFrom ids result }
{
    let mut ids = ids.into_vec();
    ids.sort_unstable();
    ids.dedup();
    Ids::from_vec(ids)
}

/// Adds what is gone from below some objects.
fn push_lost_of<T: TreeView>(
    before: &T,
    now: &Dom,
    kids: &Kids,
    ids: &[ObjId],
    out: &mut Ids,
) -> Result<(), NoMemory>
    requires kids { AreKidsOf now.now kids.now }
    ensures { OnOk result (out.new ≡ out.old ++ flat_map (lost (T.tree before.now) now.now) ids.now) }
{
    for id in ids {
        push_lost_below(before, now, kids, *id, out)?;
    }
    Ok(())
}

/// Adds what is gone from below an object. What hangs on it still is not looked up, but for what stands between others that do not.
fn push_lost_below<T: TreeView>(
    before: &T,
    now: &Dom,
    kids: &Kids,
    id: ObjId,
    out: &mut Ids,
) -> Result<(), NoMemory>
    requires kids { AreKidsOf now.now kids.now }
    ensures { OnOk result (out.new ≡ out.old ++ lost (T.tree before.now) now.now id) }
{
    let was = kids_before(before, id);
    let (start, end) = differing(was, kids_now(now, kids, id));
    push_given_of(before, now, &was[start..end], LEVELS - 1, out)?;
    Ok(())
}

/// The kids of a node; none of an unknown id.
fn kids_now<'a>(now: &Dom, kids: &'a Kids, id: ObjId) -> &'a [ObjId]
    requires kids { AreKidsOf now.now kids.now }
    ensures { (k : ℕ) → Contains result.now k → has now.now k ≡ true }
{
    now.keeps_tree();
    if !now.has(id) {
        return &[];
    }
    kids.kids(id)
}

/// Adds what is gone from below an object, at most so many levels down.
#[cycle(losing)]
fn push_lost<T: TreeView>(
    before: &T,
    now: &Dom,
    id: ObjId,
    levels: u32,
    out: &mut Ids,
) -> Result<(), NoMemory>
    ensures { OnOk result (out.new ≡ out.old ++ lost_within (T.tree before.now) now.now levels id) }
{
    if levels == 0 {
        return Ok(());
    }
    let Some(object) = before.find(id) else {
        return Ok(());
    };
    push_given_of(before, now, object.kids.as_slice(), levels - 1, out)
}

/// Adds those of some objects that are gone, each with what is gone from below it.
#[cycle(losing)]
fn push_given_of<T: TreeView>(
    before: &T,
    now: &Dom,
    kids: &[ObjId],
    levels: u32,
    out: &mut Ids,
) -> Result<(), NoMemory>
    ensures { OnOk result (out.new ≡ out.old ++ flat_map (given_within (T.tree before.now) now.now levels) kids.now) }
{
    for kid in kids {
        push_given(before, now, *kid, levels, out)?;
    }
    Ok(())
}

/// Adds an object that is gone, with what is gone from below it.
#[cycle(losing)]
fn push_given<T: TreeView>(
    before: &T,
    now: &Dom,
    id: ObjId,
    levels: u32,
    out: &mut Ids,
) -> Result<(), NoMemory>
    ensures { OnOk result (out.new ≡ out.old ++ given_within (T.tree before.now) now.now levels id) }
{
    if now.has(id) {
        return Ok(());
    }
    out.push(id)?;
    push_lost(before, now, id, levels, out)
}
