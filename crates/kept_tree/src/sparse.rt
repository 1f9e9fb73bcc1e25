//! A few records by their ids.
ghost use Rattle.std.specs.Prelude.{◌≡◌, [], OnOk, option_copied};
ghost use Rattle.std.specs.Ordering.{nat_cmp};
ghost use Rattle.std.specs.Map.{remove_entry};
ghost use Rattle.std.specs.BTreeMap.{is_at, insert_entry};
ghost use Rattle.ax_record.specs.Tree.{entry_at};

use ax_base::{NoMemory, ObjId};
use ax_record::Record;
use std::alloc::Global;
use std::collections::BTreeMap;
use std::marker::Model;

/// A few records by their ids. The memory grows with how many there are and not with the ids, and a call on n of them takes
/// about log n comparisons. A clause sees them as a list by rising id.
#[derive(Drop)]
pub struct FewRecords {
    map: BTreeMap<u32, Record>,
}

impl Model for FewRecords {
    ghost use Rattle.std.specs.Prelude.{List, ℕ};
    ghost use Rattle.ax_record.specs.declared.record.Record.{Record};

    ghost Value = { List (ℕ × Record) };

    ghost view = { λ a. a.map.entries };
}

impl FewRecords {
    /// No records. It takes no memory.
    pub fn new(alloc: Global) -> FewRecords
        ensures { result ≡ [] }
    {
        FewRecords {
            map: BTreeMap::new(alloc),
        }
    }

    /// The record of an id, or `None` exactly where there is none.
    pub fn find(&self, id: ObjId) -> Option<&Record>
        ensures { option_copied result ≡ entry_at self.now id }
    {
        self.map.get(&id.0)
    }

    /// Puts a record in, at its id, in place of the one that was there.
    pub fn put(&mut self, object: Record) -> Result<(), NoMemory>
        ensures { OnOk result (self.new ≡ insert_entry nat_cmp self.old object.id object) }
    {
        let id = object.id;
        self.map.insert(id.0, object)?;
        Ok(())
    }

    /// Takes the record of an id out and hands it over, or `None` exactly where there is none.
    pub(crate) fn take_out(&mut self, id: ObjId) -> Option<Record>
        ensures value { result ≡ entry_at self.old id }
        ensures others { self.new ≡ remove_entry (is_at (nat_cmp id)) self.old }
    {
        self.map.remove(&id.0)
    }
}
