//! Sets of ids.
ghost use Rattle.std.specs.Prelude.{◌≡◌, ◌<◌, [], IfOk, OnOk, OnErr, vec_len, slice_set};
ghost use Rattle.std.specs.List.{list_any};
ghost use Rattle.std.specs.Ordering.{nat_cmp};
ghost use Rattle.std.specs.Set.{remove_key};
ghost use Rattle.std.specs.BTreeMap.{is_at};
ghost use Rattle.std.specs.BTreeSet.{insert_key};
ghost use Rattle.ax_base.specs.IdSets.{SameMarks};

use crate::limits::NEAR_IDS;
use crate::{NoMemory, ObjId};
use std::alloc::Global;
use std::collections::BTreeSet;
use std::marker::Model;

/// Small ids, each by a mark at its place. A clause sees them as a rising list.
#[derive(Drop)]
struct Marks {
    items: Vec<bool>,
}

impl Model for Marks {
    ghost use Rattle.std.specs.Prelude.{List, ℕ};
    ghost use Rattle.ax_base.specs.IdSets.{marked};

    ghost Value = { List ℕ };

    ghost view = { λ a. marked a.items.items };
}

/// Makes a list of marks long enough for an id.
fn grow(items: &mut Vec<bool>, at: usize) -> Result<(), NoMemory>
    ensures room { OnOk result (at < vec_len items.new) }
    ensures same { SameMarks items.old.items items.new.items }
{
    'grow: while items.len() <= at {
        items.push(false)?;
    }
    Ok(())
}

impl Marks {
    /// Whether an id is marked.
    fn has(&self, id: u32) -> bool
        ensures { result ≡ list_any (is_at (nat_cmp id)) self.now }
    {
        match self.items.get(id as usize) {
            Some(mark) => *mark,
            None => false,
        }
    }

    /// Marks an id. At an error nothing changes.
    fn add(&mut self, id: u32) -> Result<(), NoMemory>
        ensures ok { OnOk result (self.new ≡ insert_key nat_cmp self.old id) }
        ensures err { OnErr result (self.new ≡ self.old) }
    {
        let at = id as usize;
        grow(&mut self.items, at)?;
        self.items[at] = true;
        Ok(())
    }

    /// Equal marks.
    fn copy(&self, alloc: Global) -> Result<Marks, NoMemory>
        ensures { IfOk result (λ marks. marks ≡ self.now) }
    {
        Ok(Marks {
            items: Vec::from_slice(alloc, self.items.as_slice())?,
        })
    }

    /// Takes the mark of an id away.
    fn remove(&mut self, id: u32)
        ensures { self.new ≡ remove_key (is_at (nat_cmp id)) self.old }
    {
        let at = id as usize;
        if at < self.items.len() {
            self.items[at] = false;
        }
    }
}

/// Ids: a mark for each below 131,072 up to the greatest that was added, a byte each, and a tree set of the others.
/// A clause sees them as a rising list.
#[derive(Drop)]
pub struct IdSet {
    near: Marks,
    far: BTreeSet<u32>,
}

impl Model for IdSet {
    ghost use Rattle.std.specs.Prelude.{List, ℕ, ◌++◌};
    ghost use Rattle.ax_base.specs.IdSets.{AreApart};

    ghost Value = { List ℕ };

    ghost view = { λ a. a.near ++ a.far.keys };

    ghost invariant = { λ a. AreApart a.near a.far.keys };
}

impl IdSet {
    /// No ids. It takes no memory.
    pub fn new(alloc: Global) -> IdSet
        ensures { result ≡ [] }
    {
        IdSet {
            near: Marks {
                items: Vec::new(alloc),
            },
            far: BTreeSet::new(alloc),
        }
    }

    /// Whether it has an id.
    pub fn has(&self, id: ObjId) -> bool
        ensures { result ≡ list_any (is_at (nat_cmp id)) self.now }
    {
        if id.0 < NEAR_IDS {
            self.near.has(id.0)
        } else {
            self.far.contains(&id.0)
        }
    }

    /// Adds an id. At an error nothing changes.
    pub fn add(&mut self, id: ObjId) -> Result<(), NoMemory>
        ensures ok { OnOk result (self.new ≡ insert_key nat_cmp self.old id) }
        ensures err { OnErr result (self.new ≡ self.old) }
    {
        if id.0 < NEAR_IDS {
            self.near.add(id.0)?;
            return Ok(());
        }
        self.far.insert(id.0)?;
        Ok(())
    }

    /// An equal set.
    pub fn copy(&self, alloc: Global) -> Result<IdSet, NoMemory>
        ensures { IfOk result (λ ids. ids ≡ self.now) }
    {
        Ok(IdSet {
            near: self.near.copy(alloc)?,
            far: self.far.clone()?,
        })
    }

    /// Takes an id away.
    pub fn remove(&mut self, id: ObjId)
        ensures { self.new ≡ remove_key (is_at (nat_cmp id)) self.old }
    {
        if id.0 < NEAR_IDS {
            self.near.remove(id.0);
        } else {
            self.far.remove(&id.0);
        }
    }
}
