//! An equal document, and what each document keeps.
ghost use Rattle.std.specs.Prelude.{◌≡◌, ◌≢◌, ℕ, true, IfOk};
ghost use Rattle.ax_base.specs.Document.{has, root};
ghost use Rattle.ax_base.specs.Trees.{IsTree};
ghost use Rattle.ax_dom.specs.Used.{is_used};

use super::Dom;
use ax_base::{Ids, NoMemory, ObjId};
use std::alloc::Global;

impl Dom {
    /// An equal document. It hands out no node, and counts no step.
    pub fn copy(&self, alloc: Global) -> Result<Dom, NoMemory>
        ensures { IfOk result (λ dom. dom ≡ self.now) }
    {
        let mut nodes = Ids::new(alloc);
        self.push_subtree(ObjId::ROOT, &mut nodes)?;
        let entries = self.entries.copy_of(alloc, nodes.as_slice())?;
        let used = self.used.copy(alloc)?;
        Ok(Dom {
            entries,
            focus: self.focus,
            used,
        })
    }

    /// A document is a tree, and each of its nodes but the root was inserted.
    ///
    /// It is a law of documents, which this call carries: it reads nothing.
    pub fn keeps_tree(&self)
        ensures tree { IsTree self.now }
        ensures inserted { (n : ℕ) → has self.now n ≡ true → n ≢ root → is_used self.now n ≡ true }
    {
        let _focus = self.focus;
    }
}
