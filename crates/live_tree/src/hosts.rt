//! The objects on which the children of nodes hang.
ghost use Rattle.std.specs.Prelude.{◌≡◌, [], OnOk};
ghost use Rattle.std.specs.Ordering.{nat_cmp};
ghost use Rattle.std.specs.BTreeMap.{insert_entry};
ghost use Rattle.live_tree.specs.Hosts.{host_below, host_above};

use ax_base::{NoMemory, ObjId};
use std::alloc::Global;
use std::collections::BTreeMap;
use std::marker::Model;

/// Of nodes that are no objects, the objects on which their children hang. A clause sees them as a list by rising node.
#[derive(Drop)]
pub(crate) struct Hosts {
    map: BTreeMap<u32, Option<ObjId>>,
}

impl Model for Hosts {
    ghost use Rattle.std.specs.Prelude.{List, ℕ, Option};

    ghost Value = { List (ℕ × Option ℕ) };

    ghost view = { λ a. a.map.entries };
}

impl Hosts {
    /// Of no node. It takes no memory.
    pub(crate) fn new(alloc: Global) -> Hosts
        ensures { result ≡ [] }
    {
        Hosts {
            map: BTreeMap::new(alloc),
        }
    }

    /// The object on which a node with such a parent hangs, if it is an object: what is kept of the parent, or the parent
    /// where nothing is kept of it; `None` without a parent.
    pub(crate) fn above(&self, parent: Option<ObjId>) -> Option<ObjId>
        ensures { result ≡ host_above self.now parent }
    {
        match parent {
            Some(parent) => self.below(parent),
            None => None,
        }
    }

    /// The object on which the children of a node hang: what is kept of the node, or the node where nothing is.
    fn below(&self, id: ObjId) -> Option<ObjId>
        ensures { result ≡ host_below self.now id }
    {
        match self.map.get(&id.0) {
            Some(host) => *host,
            None => Some(id),
        }
    }

    /// Keeps of a node the object on which its children hang.
    pub(crate) fn put(&mut self, id: ObjId, host: Option<ObjId>) -> Result<(), NoMemory>
        ensures { OnOk result (self.new ≡ insert_entry nat_cmp self.old id host) }
    {
        self.map.insert(id.0, host)?;
        Ok(())
    }
}
