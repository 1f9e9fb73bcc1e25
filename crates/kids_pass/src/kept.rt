//! Kids by node.
ghost use Rattle.std.specs.Prelude.{◌≡◌, ◌≢◌, ◌⊎◌, ◌≤◌, ◌<◌, ◌++◌, ℕ, true, false, [], length, take, Contains, IfOk, OnOk};
ghost use Rattle.std.specs.List.{flat_map};
ghost use Rattle.std.specs.Ordering.{nat_cmp};
ghost use Rattle.std.specs.BTreeMap.{insert_entry};
ghost use Rattle.ax_base.specs.Document.{Document, has};
ghost use Rattle.ax_base.specs.Kids.{kids};
ghost use Rattle.ax_roles.specs.Inclusion.{is_object_by};
ghost use Rattle.kids_pass.specs.Stamps.{Stamps, IsCurrent};
ghost use Rattle.kids_pass.specs.Kids.{given_by, given_at, kids_at, listed, is_object_or, IsListOf, AreObjects, AreKept, AreObjectsBut, IsKeptIn, AreKidsOf};

use crate::children::NodeKids;
use crate::stamps::KidStamps;
use ax_base::{IdMap, IdSet, Ids, NoMemory, ObjId, differing};
use ax_roles::Inclusion;
use std::alloc::Global;
use std::marker::Model;

/// How many children are looked at between two looks at the outcome.
const BLOCK: usize = 64;

/// Kids by node. Each node that is kept as excluded or ignored has a mark, so that one look at a child without a mark tells that
/// it gives itself to the kids of its parent. The kids of a node with the current stamp are all objects, so a child that is one
/// of them gives itself too, and is not looked at.
#[derive(Drop)]
pub(crate) struct KeptKids {
    by_node: IdMap<NodeKids>,
    replaced: IdSet,
    stamps: KidStamps,
}

impl Model for KeptKids {
    ghost use Rattle.std.specs.Prelude.{List, ℕ};
    ghost use Rattle.kids_pass.specs.declared.children.NodeKids.{NodeKids};
    ghost use Rattle.kids_pass.specs.Kids.{AreMarksRight};

    ghost Value = { List (ℕ × NodeKids) };

    ghost view = { λ a. a.by_node };

    ghost invariant = { λ a. AreMarksRight a.replaced a.stamps a.by_node };
}

impl KeptKids {
    /// No kids.
    pub(crate) fn new(alloc: Global) -> KeptKids
        ensures { result ≡ [] }
    {
        KeptKids {
            by_node: IdMap::new(alloc),
            replaced: IdSet::new(alloc),
            stamps: KidStamps::new(alloc),
        }
    }

    /// The kids of a node of the document, in order.
    pub(crate) fn kids(&self, id: ObjId) -> &[ObjId]
        ensures right { (d : Document) → AreKidsOf d self.now → has d id ≡ true → result.now ≡ kids d id }
        ensures listed { result.now ≡ listed self.now id }
    {
        match self.by_node.get(id) {
            Some(kept) => kept.kids.as_slice(),
            None => &[],
        }
    }

    /// Renews what is kept of a node: how it takes part, and what its children give together. Where its kids are known to be
    /// objects, it looks only at the children between the first and the last difference from them. Where nothing differs, it
    /// takes no memory.
    pub(crate) fn renew(
        &mut self,
        alloc: Global,
        id: ObjId,
        inclusion: Inclusion,
        children: &[ObjId],
    ) -> Result<(), NoMemory>
        requires { AreKept self.old children.now }
        ensures { OnOk result (IsKeptIn self.old self.new id (record { inclusion = inclusion; kids = flat_map (given_at self.old) children.now })) }
    {
        let (start, end) = self.unsettled(id, children);
        if start == children.len() && self.is_kept(id, inclusion, start) {
            return Ok(());
        }
        let (kids, are_objects) = self.gathered(alloc, children, start, end)?;
        self.keep(id, NodeKids { inclusion, kids }, are_objects)
    }

    /// Between which places the children of a node have to be looked at: the others are among its kids, which are known to be
    /// objects.
    fn unsettled(&self, id: ObjId, children: &[ObjId]) -> (usize, usize)
        ensures others { AreObjectsBut result.0 result.1 self.now children.now }
        ensures front { take result.0 children.now ≡ take result.0 (listed self.now id) }
    {
        if !self.stamps.has(id) {
            return (0, children.len());
        }
        differing(children, self.kids(id))
    }

    /// Whether a node is kept with so many kids, and takes part so.
    fn is_kept(&self, id: ObjId, inclusion: Inclusion, count: usize) -> bool
        ensures { result ≡ true → IsListOf (kids_at self.now id) inclusion count }
    {
        match self.by_node.get(id) {
            Some(kept) => kept.inclusion == inclusion && kept.kids.as_slice().len() == count,
            None => false,
        }
    }

    /// What some children give to the kids of their parent, together, and whether these are known to be objects. It looks at
    /// those children alone that stand between two places.
    fn gathered(
        &self,
        alloc: Global,
        children: &[ObjId],
        start: usize,
        end: usize,
    ) -> Result<(Ids, bool), NoMemory>
        requires kept { AreKept self.now children.now }
        requires others { AreObjectsBut start end self.now children.now }
        ensures value { IfOk result (λ r. r.0 ≡ flat_map (given_at self.now) children.now) }
        ensures objects { IfOk result (λ r. r.1 ≡ true → AreObjects self.now r.0) }
    {
        let mut list = Vec::with_capacity(alloc, children.len())?;
        list.extend_from_slice(&children[..start])?;
        let are_objects = self.add_each(&children[start..end], &mut list)?;
        list.extend_from_slice(&children[end..])?;
        Ok((Ids::from_vec(list), are_objects))
    }

    /// Adds what some children give, and says whether these are known to be objects.
    fn add_each(&self, children: &[ObjId], list: &mut Vec<ObjId>) -> Result<bool, NoMemory>
        requires { AreKept self.now children.now }
        ensures added { OnOk result (list.new.items ≡ list.old.items ++ flat_map (given_at self.now) children.now) }
        ensures objects { IfOk result (λ known. known ≡ true → AreObjects self.now (flat_map (given_at self.now) children.now)) }
    {
        let mut are_objects = true;
        let mut done = 0;
        while done < children.len() {
            let (more, known) = self.add_front(&children[done..], list)?;
            are_objects &= known;
            done += more;
        }
        Ok(are_objects)
    }

    /// Adds what the first of some children give, up to one that does not give itself, and says how many these are, and
    /// whether what they give is known to be objects.
    fn add_front(
        &self,
        children: &[ObjId],
        list: &mut Vec<ObjId>,
    ) -> Result<(usize, bool), NoMemory>
        requires some { 0 < length children.now }
        requires kept { AreKept self.now children.now }
        ensures added { IfOk result (λ r. list.new.items ≡ list.old.items ++ flat_map (given_at self.now) (take r.0 children.now)) }
        ensures objects { IfOk result (λ r. r.1 ≡ true → AreObjects self.now (flat_map (given_at self.now) (take r.0 children.now))) }
        ensures within { IfOk result (λ r. r.0 ≤ length children.now) }
        ensures goes_on { IfOk result (λ r. 0 < r.0) }
    {
        let plain = self.plain(children);
        list.extend_from_slice(&children[..plain])?;
        if plain == children.len() {
            return Ok((plain, true));
        }
        let are_objects = self.gives_objects(children[plain]);
        self.add_given(children[plain], list)?;
        Ok((plain + 1, are_objects))
    }

    /// How many of the first of some children have no mark, so that each is an object and gives itself.
    fn plain(&self, children: &[ObjId]) -> usize
        requires { AreKept self.now children.now }
        ensures within { result ≤ length children.now }
        ensures objects { AreObjects self.now (take result children.now) }
    {
        for at in self.plain_blocks(children)..children.len() {
            if self.replaced.has(children[at]) {
                return at;
            }
        }
        children.len()
    }

    /// How many of the first of some children have no mark, in whole blocks.
    fn plain_blocks(&self, children: &[ObjId]) -> usize
        requires { AreKept self.now children.now }
        ensures within { result ≤ length children.now }
        ensures objects { AreObjects self.now (take result children.now) }
    {
        let mut at = 0;
        'plain: while BLOCK <= children.len() - at {
            if self.has_marked(&children[at..at + BLOCK]) {
                return at;
            }
            at += BLOCK;
        }
        at
    }

    /// Whether some of these children may have a mark. It looks at each of them and never ends early.
    fn has_marked(&self, children: &[ObjId]) -> bool
        requires { AreKept self.now children.now }
        ensures { result ≡ false → AreObjects self.now children.now }
    {
        let mut marked = false;
        for at in 0..children.len() {
            marked |= self.replaced.has(children[at]);
        }
        marked
    }

    /// Whether what a child gives is known to be objects.
    fn gives_objects(&self, child: ObjId) -> bool
        ensures { result ≡ true → AreObjects self.now (given_at self.now child) }
    {
        match self.by_node.get(child) {
            Some(kept) => match kept.inclusion {
                Inclusion::Included | Inclusion::Excluded => true,
                Inclusion::Ignored => self.stamps.has(child),
            },
            None => false,
        }
    }

    /// Adds what a child gives: nothing where it is out, its kids where it is ignored, or itself.
    fn add_given(&self, child: ObjId, list: &mut Vec<ObjId>) -> Result<(), NoMemory>
        ensures { OnOk result (list.new.items ≡ list.old.items ++ given_at self.now child) }
    {
        match self.by_node.get(child) {
            Some(kept) => add_by(kept, child, list),
            None => add_ids(&[child], list),
        }
    }

    /// Keeps the kids of a node, and whether they are known to be objects.
    fn keep(&mut self, id: ObjId, kept: NodeKids, are_objects: bool) -> Result<(), NoMemory>
        requires { are_objects ≡ true → AreObjects self.old kept.kids }
        ensures { OnOk result (self.new ≡ insert_entry nat_cmp self.old id kept) }
    {
        if kept.inclusion.is_object() {
            return self.keep_object(id, kept, are_objects);
        }
        self.keep_other(id, kept, are_objects)
    }

    /// Keeps the kids of an object.
    fn keep_object(&mut self, id: ObjId, kept: NodeKids, are_objects: bool) -> Result<(), NoMemory>
        requires object { is_object_by kept.inclusion ≡ true }
        requires known { are_objects ≡ true → AreObjects self.old kept.kids }
        ensures { OnOk result (self.new ≡ insert_entry nat_cmp self.old id kept) }
    {
        self.stamps.remove(id);
        self.by_node.put(id, kept)?;
        self.replaced.remove(id);
        add_if(&mut self.stamps, id, are_objects)
    }

    /// Keeps the kids of a node that is no object. Where it was one, it may be among the kids of any node, so that no kids are
    /// known to be objects from now on.
    fn keep_other(&mut self, id: ObjId, kept: NodeKids, are_objects: bool) -> Result<(), NoMemory>
        requires known { are_objects ≡ true → AreObjects self.old kept.kids }
        ensures { OnOk result (self.new ≡ insert_entry nat_cmp self.old id kept) }
    {
        let was_object = self.is_object(id);
        forget(&mut self.stamps, id, was_object);
        self.replaced.add(id)?;
        self.by_node.put(id, kept)?;
        add_if(&mut self.stamps, id, are_objects && !was_object)
    }

    /// Whether a node is an object by what is kept of it.
    pub(crate) fn is_object(&self, id: ObjId) -> bool
        ensures { result ≡ is_object_or false (kids_at self.now id) }
    {
        match self.by_node.get(id) {
            Some(kept) => kept.inclusion.is_object(),
            None => false,
        }
    }
}

/// Takes the stamp of a node away, or those of all nodes.
fn forget(stamps: &mut KidStamps, id: ObjId, all: bool)
    ensures { (n : ℕ) → IsCurrent stamps.new n → IsCurrent stamps.old n × (n ≢ id) × (all ≡ false) }
{
    if all {
        stamps.turn();
        return;
    }
    stamps.remove(id);
}

/// Gives a node the current stamp, if wanted.
fn add_if(stamps: &mut KidStamps, id: ObjId, wanted: bool) -> Result<(), NoMemory>
    ensures { (n : ℕ) → IsCurrent stamps.new n → IsCurrent stamps.old n ⊎ ((n ≡ id) × (wanted ≡ true)) }
{
    if wanted {
        stamps.add(id)?;
    }
    Ok(())
}

/// Adds what a child gives of which this is kept.
fn add_by(kept: &NodeKids, child: ObjId, list: &mut Vec<ObjId>) -> Result<(), NoMemory>
    ensures { OnOk result (list.new.items ≡ list.old.items ++ given_by kept.now.inclusion kept.now.kids child) }
{
    match kept.inclusion {
        Inclusion::Included => add_ids(&[child], list),
        Inclusion::Ignored => add_ids(kept.kids.as_slice(), list),
        Inclusion::Excluded => Ok(()),
    }
}

/// Adds some ids at the end of a list.
fn add_ids(ids: &[ObjId], list: &mut Vec<ObjId>) -> Result<(), NoMemory>
    ensures { OnOk result (list.new.items ≡ list.old.items ++ ids.now) }
{
    list.extend_from_slice(ids)?;
    Ok(())
}
