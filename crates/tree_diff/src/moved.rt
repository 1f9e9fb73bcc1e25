//! The kids of an object that hung elsewhere before.
ghost use Rattle.std.specs.Prelude.{◌≡◌, ◌++◌, ◌∷◌, [], filter, if◌then◌else◌, IfOk, OnOk};
ghost use Rattle.std.specs.List.Sorted.{IsStrictlyIncreasing};
ghost use Rattle.ax_record.specs.ObjectTrees.{IsObjectTree};
ghost use Rattle.ax_record.specs.Tree.{kids_of};
ghost use Rattle.tree_diff.specs.Candidates.{hung_on, is_moved};

use ax_base::{Ids, NoMemory, ObjId, differing};
use ax_dom::is_among;
use ax_record::TreeView;
use std::alloc::Global;

/// Of the objects that hang on one now, in their order, those that hung elsewhere before and are not among some nodes, which
/// rise. It looks only those up that stand between the first and the last difference from the kids that the object had: all
/// others hung on it.
pub fn moved_kids<T: TreeView>(
    alloc: Global,
    before: &T,
    nodes: &[ObjId],
    above: ObjId,
    hung: &[ObjId],
) -> Result<Ids, NoMemory>
    requires rising { IsStrictlyIncreasing nodes.now }
    ensures { IfOk result (λ kids. kids ≡ filter (is_moved (T.tree before.now) nodes.now above) hung.now) }
{
    let (start, end) = differing(hung, kids_before(before, above));
    let mut kids = Ids::new(alloc);
    push_moved(before, nodes, above, &hung[start..end], &mut kids)?;
    Ok(kids)
}

/// The kids of an object; none of an unknown id.
pub(crate) fn kids_before<T: TreeView>(before: &T, id: ObjId) -> &[ObjId]
    ensures value { result.now ≡ kids_of (T.tree before.now) id }
    ensures is_tree { IsObjectTree (T.tree before.now) }
{
    match before.find(id) {
        Some(object) => object.kids.as_slice(),
        None => &[],
    }
}

/// Adds those of some ids that hung elsewhere before and are not among some nodes.
fn push_moved<T: TreeView>(
    before: &T,
    nodes: &[ObjId],
    above: ObjId,
    ids: &[ObjId],
    out: &mut Ids,
) -> Result<(), NoMemory>
    requires rising { IsStrictlyIncreasing nodes.now }
    ensures { OnOk result (out.new ≡ out.old ++ filter (is_moved (T.tree before.now) nodes.now above) ids.now) }
{
    for id in ids {
        push_if(is_moved(before, nodes, above, *id), *id, out)?;
    }
    Ok(())
}

/// Adds an id, or leaves it out.
fn push_if(wanted: bool, id: ObjId, out: &mut Ids) -> Result<(), NoMemory>
    ensures { OnOk result (out.new ≡ (if wanted then out.old ++ id ∷ [] else out.old)) }
{
    if wanted {
        return out.push(id);
    }
    Ok(())
}

/// Whether an object hung elsewhere before and is not among some nodes.
fn is_moved<T: TreeView>(before: &T, nodes: &[ObjId], above: ObjId, id: ObjId) -> bool
    requires rising { IsStrictlyIncreasing nodes.now }
    ensures { result ≡ is_moved (T.tree before.now) nodes.now above id }
{
    !hung_on(before, above, id) && !is_among(nodes, id)
}

/// Whether an object hung on another.
fn hung_on<T: TreeView>(before: &T, above: ObjId, id: ObjId) -> bool
    ensures { result ≡ hung_on (T.tree before.now) above id }
{
    match before.find(id) {
        Some(object) => object.parent == Some(above),
        None => false,
    }
}
