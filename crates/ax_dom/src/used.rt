//! The ids that were ever inserted.
ghost use Rattle.std.specs.Prelude.{◌≡◌, length, false, IfOk, OnOk, OnErr, []};
ghost use Rattle.std.specs.List.{list_any};
ghost use Rattle.std.specs.Ordering.{nat_cmp};
ghost use Rattle.std.specs.BTreeMap.{is_at};
ghost use Rattle.std.specs.BTreeSet.{insert_key};
ghost use Rattle.std.specs.Set.{remove_key};

use ax_base::{IdSet, NoMemory, ObjId};
use std::alloc::Global;
use std::marker::Model;

/// The ids that were ever inserted. A clause sees them as the rising list of their numbers.
#[derive(Drop)]
pub struct UsedIds {
    ids: IdSet,
    count: usize,
}

impl Model for UsedIds {
    ghost use Rattle.std.specs.Prelude.{◌≡◌, List, ℕ, length};

    ghost Value = { List ℕ };

    ghost view = { λ a. a.ids };

    ghost invariant = { λ a. a.count ≡ length a.ids };
}

impl UsedIds {
    /// No ids.
    pub fn new(alloc: Global) -> UsedIds
        ensures { result ≡ [] }
    {
        UsedIds {
            ids: IdSet::new(alloc),
            count: 0,
        }
    }

    /// Whether an id was inserted.
    pub fn has(&self, id: ObjId) -> bool
        ensures { result ≡ list_any (is_at (nat_cmp id)) self.now }
    {
        self.ids.has(id)
    }

    /// Equal ids.
    pub fn copy(&self, alloc: Global) -> Result<UsedIds, NoMemory>
        ensures { IfOk result (λ used. used ≡ self.now) }
    {
        Ok(UsedIds {
            ids: self.ids.copy(alloc)?,
            count: self.count,
        })
    }

    /// How many ids were inserted.
    pub fn len(&self) -> usize
        ensures { result ≡ length self.now }
    {
        self.count
    }

    /// Adds an id. At an error nothing changes.
    pub fn add(&mut self, id: ObjId) -> Result<(), NoMemory>
        requires { list_any (is_at (nat_cmp id)) self.old ≡ false }
        ensures ok { OnOk result (self.new ≡ insert_key nat_cmp self.old id) }
        ensures err { OnErr result (self.new ≡ self.old) }
    {
        let Some(count) = self.count.checked_add(1) else {
            return Err(NoMemory);
        };
        self.ids.add(id)?;
        self.count = count;
        Ok(())
    }

    /// Takes an id away.
    pub fn remove(&mut self, id: ObjId)
        ensures { self.new ≡ remove_key (is_at (nat_cmp id)) self.old }
    {
        if self.ids.has(id) {
            self.ids.remove(id);
            self.count -= 1;
        }
    }
}
