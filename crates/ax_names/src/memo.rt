//! Texts that are gathered once for each node.
ghost use Rattle.std.specs.Prelude.{◌≡◌, ℕ, OnOk, None, Some, IfSome, option_copied, nat_eq, if◌then◌else◌};
ghost use Rattle.ax_base.specs.Characters.{Chars};
ghost use Rattle.ax_names.specs.Memos.{kept_at, Keeps};

use crate::gather::Gather;
use ax_base::{NoMemory, ObjId};
use std::alloc::Global;
use std::collections::HashMap;

/// The texts that were gathered of nodes, by their ids.
#[derive(Drop)]
pub struct Memo<G> {
    gathered: HashMap<u32, G>,
}

impl<G: Gather> Memo<G> {
    /// Nothing is kept yet. It takes no memory.
    pub fn new(alloc: Global) -> Memo<G>
        ensures nothing { (n : ℕ) → kept_at result n ≡ None }
        ensures sound { (text : ℕ → Chars) → Keeps G.of text result }
    {
        Memo {
            gathered: HashMap::new(alloc),
        }
    }

    /// The text of a node, if it was gathered before.
    pub fn get(&self, id: ObjId) -> Option<&G>
        ensures value { option_copied result ≡ kept_at self.now id }
        ensures sound { IfSome result (λ p. (text : ℕ → Chars) → Keeps G.of text self.now → p.now ≡ G.of (text id)) }
    {
        self.gathered.get(&id.0)
    }

    /// Keeps the text that was gathered of a node.
    pub fn keep(&mut self, id: ObjId, said: G) -> Result<(), NoMemory>
        ensures value { OnOk result ((n : ℕ) → kept_at self.new n ≡ (if nat_eq id n then Some said else kept_at self.old n)) }
        ensures sound { OnOk result ((text : ℕ → Chars) → Keeps G.of text self.old → said ≡ G.of (text id) → Keeps G.of text self.new) }
    {
        self.gathered.insert(id.0, said)?;
        Ok(())
    }
}
