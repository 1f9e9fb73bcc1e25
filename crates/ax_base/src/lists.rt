//! Lists of ids and of runs.
ghost use Rattle.std.specs.Prelude.{◌≡◌, ◌==◌, ◌<◌, not, filter, length};
ghost use Rattle.std.specs.List.{remove};

use crate::{ObjId, Run, Sequence, first_place};

/// The runs of a text, in order. A clause sees them as a list.
pub type Runs = Sequence<Run>;

/// Some ids, in order. A clause sees them as a list of numbers.
pub type Ids = Sequence<ObjId>;

impl Sequence<ObjId> {
    /// Takes an id out, wherever it stands.
    pub fn take_out(&mut self, id: ObjId)
        ensures { self.new ≡ filter (λ x. not (x == id)) self.old }
    {
        let mut from = 0;
        while from < self.items.len() {
            from = first_place(self.items.as_slice(), from, id);
            if from < self.items.len() {
                self.items.remove(from);
            }
        }
    }

    /// Takes out the id at a place.
    pub fn remove(&mut self, index: usize)
        requires { index < length self.old }
        ensures { self.new ≡ remove self.old index }
    {
        self.items.remove(index);
    }
}
