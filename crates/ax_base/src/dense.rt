//! Values by small ids.
ghost use Rattle.std.specs.Prelude.{◌≡◌, ◌≢◌, ◌+◌, ◌<◌, ◌≤◌, ℕ, [], ◌∷◌, map, OnOk, OnErr, IfOk, IsSome, Some, None, is_some, option_copied, vec_len, slice_set};
ghost use Rattle.std.specs.Option.{option_copied_mut};
ghost use Rattle.std.specs.Borrow.{Lends, LendsIf, sem};
ghost use Rattle.std.specs.Ordering.{nat_cmp};
ghost use Rattle.std.specs.Map.{lookup, remove_entry};
ghost use Rattle.std.specs.BTreeMap.{is_at, insert_entry};
ghost use Rattle.ax_base.specs.IdMaps.{value_of, SamePlaces};

use crate::NoMemory;
use std::alloc::Global;
use std::marker::Model;

/// A place of the list: the value of its id, or none.
#[derive(Drop)]
pub(crate) enum Place<V> {
    Empty,
    Full(Box<V>),
}

impl<V> Place<V> {
    ghost use Rattle.ax_base.specs.contracts.dense.Place.{the_row};
    ghost use Rattle.ax_base.specs.IdMaps.{LendsPlace};

    /// The value.
    fn get(&self) -> Option<&V>
        ensures { option_copied result ≡ value_of self.now }
    {
        match self {
            Place::Full(value) => Some(&**value),
            Place::Empty => None,
        }
    }

    /// The value for writing.
    fn get_mut(&mut self) -> Option<&mut V>
        ensures* writes_back { sem 𝓛 (LendsPlace V.row self.entry result) }
        ensures value { option_copied_mut result ≡ value_of self.old }
    {
        match self {
            Place::Full(value) => Some(value.as_mut()),
            Place::Empty => None,
        }
    }
}

/// Values by ids, in a list that is as long as the greatest id that it has had. A clause sees them by rising id.
#[derive(Drop)]
pub(crate) struct Dense<V> {
    places: Vec<Place<V>>,
    alloc: Global,
}

impl<V> Model for Dense<V> {
    ghost use Rattle.std.specs.Prelude.{List, ℕ, map};
    ghost use Rattle.ax_base.specs.IdMaps.{value_of, filled_from};

    ghost Value = { List (ℕ × V) };

    ghost view = { λ a. filled_from 0 (map value_of a.places.items) };
}

/// Makes a list of places long enough for an id.
fn grow<V: Drop>(places: &mut Vec<Place<V>>, at: usize) -> Result<(), NoMemory>
    ensures room { OnOk result (at < vec_len places.new) }
    ensures same { SamePlaces places.old.items places.new.items }
{
    'grow: while places.len() <= at {
        places.push(Place::Empty)?;
    }
    Ok(())
}

/// Puts a place in the list, over the one that is there.
fn set_place<V: Drop>(places: &mut Vec<Place<V>>, at: usize, place: Place<V>)
    requires { at < vec_len places.old }
    ensures { places.new.items ≡ slice_set places.old.items at place }
{
    places[at] = place;
}

impl<V: Drop> Dense<V> {
    ghost use Rattle.ax_base.specs.IdLends.{lends_dense};

    /// No values. It takes no memory.
    pub(crate) fn new(alloc: Global) -> Dense<V>
        ensures { result ≡ [] }
    {
        Dense {
            places: Vec::new(alloc),
            alloc,
        }
    }

    /// The value of an id.
    pub(crate) fn get(&self, id: u32) -> Option<&V>
        ensures { option_copied result ≡ lookup (is_at (nat_cmp id)) self.now }
    {
        match self.places.get(id as usize) {
            Some(place) => place.get(),
            None => None,
        }
    }

    /// The value of an id for writing.
    pub(crate) fn get_mut(&mut self, id: u32) -> Option<&mut V>
        ensures* writes_back { sem 𝓛 (lends_dense V.row self.entry id result) }
        ensures value { option_copied_mut result ≡ lookup (is_at (nat_cmp id)) self.old }
    {
        match self.places.get_mut(id as usize) {
            Some(place) => place.get_mut(),
            None => None,
        }
    }

    /// Puts a value at an id, in place of the one that was there. At an error nothing changes.
    pub(crate) fn put(&mut self, id: u32, value: V) -> Result<(), NoMemory>
        ensures ok { OnOk result (self.new ≡ insert_entry nat_cmp self.old id value) }
        ensures err { OnErr result (self.new ≡ self.old) }
    {
        let at = id as usize;
        let boxed = Box::new(self.alloc, value)?;
        grow(&mut self.places, at)?;
        set_place(&mut self.places, at, Place::Full(boxed));
        Ok(())
    }

    /// Takes the value of an id away.
    pub(crate) fn remove(&mut self, id: u32)
        ensures { self.new ≡ remove_entry (is_at (nat_cmp id)) self.old }
    {
        let at = id as usize;
        if at < self.places.len() {
            set_place(&mut self.places, at, Place::Empty);
        }
    }
}
