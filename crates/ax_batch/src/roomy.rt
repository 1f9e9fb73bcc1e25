//! Lists with room for more, so that a push takes no memory.
ghost use Rattle.std.specs.Prelude.{◌≡◌, ◌+◌, ◌≤◌, ◌<◌, ◌++◌, [], ◌∷◌, OnOk};

use ax_base::NoMemory;
use std::alloc::Global;
use std::marker::Model;

/// A list with room for more. A clause sees its items, and how many more it has room for.
#[derive(Drop)]
pub(crate) struct Roomy<T> {
    items: Vec<T>,
}

impl<T> Model for Roomy<T> {
    ghost use Rattle.std.specs.Prelude.{List, ℕ, ◌-◌, vec_len, vec_capacity};

    ghost Value = { List T × ℕ };

    ghost view = { λ a. (a.items.items, vec_capacity a.items - vec_len a.items) };
}

impl<T: Drop> Roomy<T> {
    /// No items. It takes no memory.
    pub(crate) fn new(alloc: Global) -> Roomy<T>
        ensures { result.0 ≡ [] }
    {
        Roomy {
            items: Vec::new(alloc),
        }
    }

    /// Makes room for so many more. At an error the items stay, and so does the room.
    pub(crate) fn make_room(&mut self, more: usize) -> Result<(), NoMemory>
        ensures items { self.new.0 ≡ self.old.0 }
        ensures grows { self.old.1 ≤ self.new.1 }
        ensures ok { OnOk result (more ≤ self.new.1) }
    {
        self.items.reserve(more)?;
        Ok(())
    }

    /// Adds an item at the end. It takes no memory.
    pub(crate) fn push(&mut self, item: T)
        requires { 0 < self.old.1 }
        ensures items { self.new.0 ≡ self.old.0 ++ item ∷ [] }
        ensures room { self.old.1 ≤ self.new.1 + 1 }
    {
        self.items.push_reserved(item);
    }

    /// The items. It takes no memory.
    pub(crate) fn into_vec(self) -> Vec<T>
        ensures { result.items ≡ self.0 }
    {
        self.items
    }
}
