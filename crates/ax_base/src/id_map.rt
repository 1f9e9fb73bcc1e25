//! Values by ids.
ghost use Rattle.std.specs.Prelude.{◌≡◌, [], OnOk, OnErr, is_some, option_copied};
ghost use Rattle.std.specs.Option.{option_copied_mut};
ghost use Rattle.std.specs.Borrow.{sem};
ghost use Rattle.std.specs.Ordering.{nat_cmp};
ghost use Rattle.std.specs.Map.{lookup, remove_entry};
ghost use Rattle.std.specs.BTreeMap.{is_at, insert_entry};

use crate::dense::Dense;
use crate::limits::NEAR_IDS;
use crate::{NoMemory, ObjId};
use std::alloc::Global;
use std::collections::BTreeMap;
use std::marker::Model;

/// Values by ids: those of ids below 131,072 in a list that is as long as the greatest of them that was ever put in, at most
/// that many places of a tag and a pointer to the value, and those of greater ids in a tree map. A look-up of a small id reads
/// one place. A clause sees them as a list by rising id.
#[derive(Drop)]
pub struct IdMap<V> {
    near: Dense<V>,
    far: BTreeMap<u32, V>,
}

impl<V> Model for IdMap<V> {
    ghost use Rattle.std.specs.Prelude.{List, ℕ, ◌++◌};
    ghost use Rattle.ax_base.specs.IdMaps.{IsSplit};

    ghost Value = { List (ℕ × V) };

    ghost view = { λ a. a.near ++ a.far.entries };

    ghost invariant = { λ a. IsSplit a.near a.far.entries };
}

/// Takes the value of an id out of the tree map, and drops it.
fn drop_far<V: Drop>(far: &mut BTreeMap<u32, V>, id: u32)
    ensures { far.new.entries ≡ remove_entry (is_at (nat_cmp id)) far.old.entries }
{
    far.remove(&id);
}

impl<V: Drop> IdMap<V> {
    ghost use Rattle.ax_base.specs.IdLends.{lends_value};

    /// No values. It takes no memory.
    pub fn new(alloc: Global) -> IdMap<V>
        ensures { result ≡ [] }
    {
        IdMap {
            near: Dense::new(alloc),
            far: BTreeMap::new(alloc),
        }
    }

    /// The value of an id, or `None` exactly where there is none.
    pub fn get(&self, id: ObjId) -> Option<&V>
        ensures { option_copied result ≡ lookup (is_at (nat_cmp id)) self.now }
    {
        if id.0 < NEAR_IDS {
            self.near.get(id.0)
        } else {
            self.far.get(&id.0)
        }
    }

    /// Whether there is a value of an id.
    pub fn has(&self, id: ObjId) -> bool
        ensures { result ≡ is_some (lookup (is_at (nat_cmp id)) self.now) }
    {
        self.get(id).is_some()
    }

    /// The value of an id for writing, or `None` exactly where there is none.
    pub fn get_mut(&mut self, id: ObjId) -> Option<&mut V>
        ensures* writes_back { sem 𝓛 (lends_value V.row self.entry id result) }
        ensures value { option_copied_mut result ≡ lookup (is_at (nat_cmp id)) self.old }
    {
        if id.0 < NEAR_IDS {
            self.near.get_mut(id.0)
        } else {
            self.far.get_mut(&id.0)
        }
    }

    /// Puts a value at an id, in place of the one that was there. At an error nothing changes.
    pub fn put(&mut self, id: ObjId, value: V) -> Result<(), NoMemory>
        ensures ok { OnOk result (self.new ≡ insert_entry nat_cmp self.old id value) }
        ensures err { OnErr result (self.new ≡ self.old) }
    {
        if id.0 < NEAR_IDS {
            self.near.put(id.0, value)?;
            return Ok(());
        }
        self.far.insert(id.0, value)?;
        Ok(())
    }

    /// Takes the value of an id away.
    pub fn remove(&mut self, id: ObjId)
        ensures { self.new ≡ remove_entry (is_at (nat_cmp id)) self.old }
    {
        if id.0 < NEAR_IDS {
            self.near.remove(id.0);
        } else {
            drop_far(&mut self.far, id.0);
        }
    }
}
