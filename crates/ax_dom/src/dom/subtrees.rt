//! A node and what is below it.
ghost use Rattle.std.specs.Prelude.{◌≡◌, ◌+◌, ◌-◌, ◌++◌, ◌≤◌, nat_eq, nat_lt, OnOk};
ghost use Rattle.std.specs.List.{list_any};
ghost use Rattle.ax_base.specs.Document.{children, depth, lineage};
ghost use Rattle.ax_base.specs.Trees.{IsTree};
ghost use Rattle.ax_dom.specs.Subtrees.{subtree};
ghost use Rattle.ax_dom.specs.Refusals.{exceeds_depth};

use super::Dom;
use ax_base::{Ids, MAX_DEPTH, NoMemory, ObjId};

impl Dom {
    /// The children of a node, in order.
    pub(super) fn children_of(&self, id: ObjId) -> &[ObjId]
        ensures value { result.now ≡ children self.now id }
        ensures tree { IsTree self.now }
    {
        match self.entries.get(id) {
            Some(entry) => entry.children.as_slice(),
            None => &[],
        }
    }

    /// Whether a node is another or above it.
    pub(super) fn is_above(&self, id: ObjId, below: ObjId) -> bool
        ensures { result ≡ list_any (nat_eq id) (lineage self.now below) }
    {
        if id.number() == below.number() {
            return true;
        }
        match self.parent_of(below) {
            Some(parent) => self.is_above(id, parent),
            None => false,
        }
    }

    /// Whether some node would have more than 64 ancestors, if `id` hung on `into`.
    pub(super) fn exceeds_depth(&self, id: ObjId, into: ObjId) -> bool
        ensures { result ≡ exceeds_depth self.now id into }
    {
        let base = u32::from(self.depth_of(into)) + 1;
        let top = u32::from(self.depth_of(id));
        self.has_deeper(id, base, top)
    }

    /// Whether some node of a subtree is too deep, where `base` takes the place of the depth `top`.
    fn has_deeper(&self, id: ObjId, base: u32, top: u32) -> bool
        requires { base ≤ 256 }
        ensures { result ≡ list_any (λ m. nat_lt MAX_DEPTH (base + (depth self.now m - top))) (subtree self.now id) }
    {
        if base + u32::from(self.depth_of(id)).saturating_sub(top) > MAX_DEPTH {
            return true;
        }
        for child in self.children_of(id) {
            if self.has_deeper(*child, base, top) {
                return true;
            }
        }
        false
    }

    /// Adds a node and all that is below it to some ids, in tree order.
    pub(super) fn push_subtree(&self, id: ObjId, out: &mut Ids) -> Result<(), NoMemory>
        ensures { OnOk result (out.new ≡ out.old ++ subtree self.now id) }
    {
        out.push(id)?;
        for child in self.children_of(id) {
            self.push_subtree(*child, out)?;
        }
        Ok(())
    }
}
