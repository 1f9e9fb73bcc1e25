//! Which nodes are known to have objects alone as kids.
ghost use Rattle.std.specs.Prelude.{◌≡◌, ◌≢◌, ◌⊎◌, ◌<◌, ◌≤◌, ℕ, true, OnOk, vec_len, slice_index_or};
ghost use Rattle.kids_pass.specs.Stamps.{IsCurrent};

use ax_base::{NoMemory, ObjId};
use std::alloc::Global;
use std::marker::Model;

/// Only ids below it have a stamp.
const MOST: usize = 131_072;

/// A stamp for each small id: a number, which is the current one where all kids of this node are known to be objects.
#[derive(Drop)]
pub(crate) struct KidStamps {
    given: Vec<u32>,
    current: u32,
}

impl Model for KidStamps {
    ghost use Rattle.kids_pass.specs.Stamps.{Stamps, AreStampsRight};

    ghost Value = { Stamps };

    ghost view = { λ a. record { given = a.given.items; current = a.current } };

    ghost invariant = { λ a. AreStampsRight a.given.items a.current };
}

/// Makes a list of stamps long enough for an id.
fn grow(given: &mut Vec<u32>, at: usize) -> Result<(), NoMemory>
    ensures room { OnOk result (at < vec_len given.new) }
    ensures same { (n : ℕ) → slice_index_or given.new.items n 0 ≡ slice_index_or given.old.items n 0 }
{
    'grow: while given.len() <= at {
        given.push(0)?;
    }
    Ok(())
}

impl KidStamps {
    /// No node has the current stamp. It takes no memory.
    pub(crate) fn new(alloc: Global) -> KidStamps
        ensures { (n : ℕ) → IsCurrent result n → ⊥ }
    {
        KidStamps {
            given: Vec::new(alloc),
            current: 1,
        }
    }

    /// Whether a node is known to have the current stamp.
    pub(crate) fn has(&self, id: ObjId) -> bool
        ensures { result ≡ true → IsCurrent self.now id }
    {
        match self.given.get(id.number() as usize) {
            Some(stamp) => *stamp == self.current,
            None => false,
        }
    }

    /// Gives a node the current stamp. Only small ids get one.
    pub(crate) fn add(&mut self, id: ObjId) -> Result<(), NoMemory>
        ensures { (n : ℕ) → IsCurrent self.new n → IsCurrent self.old n ⊎ (n ≡ id) }
    {
        let at = id.number() as usize;
        if at < MOST {
            grow(&mut self.given, at)?;
            self.given[at] = self.current;
        }
        Ok(())
    }

    /// Takes the stamp of a node away.
    pub(crate) fn remove(&mut self, id: ObjId)
        ensures { (n : ℕ) → IsCurrent self.new n → IsCurrent self.old n × (n ≢ id) }
    {
        let at = id.number() as usize;
        if at < self.given.len() {
            self.given[at] = 0;
        }
    }

    /// Lets no node have the current stamp any more.
    pub(crate) fn turn(&mut self)
        ensures { (n : ℕ) → IsCurrent self.new n → ⊥ }
    {
        if self.current == u32::MAX {
            self.given.clear();
            self.current = 0;
        }
        self.current += 1;
    }
}
