//! Marks: what edits leave for the next flush.
ghost use Rattle.std.specs.Prelude.{◌≡◌, ◌≢◌, ◌≤◌, ◌+◌, ◌*◌, ℕ, true, None, IfOk, OnOk, OnErr};
ghost use Rattle.ax_base.specs.Document.{Document, has, root};
ghost use Rattle.ax_base.specs.Trees.{IsTree};
ghost use Rattle.ax_dom.specs.Changes.{edited};
ghost use Rattle.ax_dom.specs.Refusals.{edit_cause};
ghost use Rattle.ax_dom.specs.Used.{is_used};
ghost use Rattle.dirty_set.specs.Reach.{no_marks, joined_marks, marks_of, reach, weight};
ghost use Rattle.dirty_set.specs.Marking.{marked};
ghost use Rattle.dom_ids.specs.Index.{IsIndexOf};
ghost use Rattle.dirty_set.specs.Alike.{AreAlike};
ghost use Rattle.dirty_set.specs.Covers.{Covers};

use crate::laws::marks_cover;
use crate::noted::{marked_nodes, marked_roots, marked_texts};
use crate::reach::reached;
use ax_base::{Ids, NoMemory, ObjId, Steps, Text};
use ax_dom::{Dom, Edit};
use dom_ids::IdIndex;
use std::alloc::Global;
use std::marker::Model;
use std::sync::ledger::Ledger;

/// Marks: nodes that changed, roots below which all may have changed, and texts by which nodes refer to nodes. What
/// they can reach covers each node of which something differs from a document that was flushed.
#[derive(Drop)]
pub struct Marks {
    nodes: Vec<ObjId>,
    roots: Vec<ObjId>,
    texts: Vec<Text>,
}

impl Model for Marks {
    ghost use Rattle.dirty_set.specs.Reach.{Marked, marks_of};

    ghost Value = { Marked };

    ghost view = { λ a. marks_of a.nodes.items a.roots.items a.texts.items };
}

impl Marks {
    /// No marks. It takes no memory.
    pub fn empty(alloc: Global) -> Marks
        ensures { result ≡ no_marks }
    {
        Marks {
            nodes: Vec::new(alloc),
            roots: Vec::new(alloc),
            texts: Vec::new(alloc),
        }
    }

    /// Adds the marks of an edit that leads from one document to the next, and takes none away. `ids` is the index of
    /// the document after the edit. At an error nothing changes. It reads what the edit touches and what is above that.
    pub fn note<L: Ledger>(
        &mut self,
        alloc: Global,
        old: &Dom,
        now: &Dom,
        ids: &IdIndex,
        e: &Edit,
        steps: &mut Steps<L>,
    ) -> Result<(), NoMemory>
        requires free { edit_cause old.now e.now ≡ None }
        requires leads { now.now ≡ edited old.now e.now }
        requires index { IsIndexOf now.now ids.now }
        ensures ok { OnOk result (AreAlike (joined_marks self.old (marked old.now now.now e.now)) self.new) }
        ensures covers { OnOk result ((flushed : Document) → Covers flushed old.now self.old → Covers flushed now.now self.new) }
        ensures err { OnErr result (self.new ≡ self.old) }
    {
        old.keeps_tree();
        now.keeps_tree();
        marks_cover(old, now, e);
        let nodes = marked_nodes(alloc, old, now, e, steps)?;
        let roots = marked_roots(alloc, old, now, e, steps)?;
        let texts = marked_texts(alloc, old, now, e, &nodes, &roots, steps)?;
        self.add(nodes.into_vec(), roots.into_vec(), texts)?;
        Ok(())
    }

    /// Adds marks. At an error nothing changes.
    fn add(
        &mut self,
        nodes: Vec<ObjId>,
        roots: Vec<ObjId>,
        texts: Vec<Text>,
    ) -> Result<(), NoMemory>
        ensures ok { OnOk result (self.new ≡ joined_marks self.old (marks_of nodes.items roots.items texts.items)) }
        ensures err { OnErr result (self.new ≡ self.old) }
    {
        let (mut more_nodes, mut more_roots, mut more_texts) = (nodes, roots, texts);
        self.nodes.reserve(more_nodes.len())?;
        self.roots.reserve(more_roots.len())?;
        self.texts.reserve(more_texts.len())?;
        self.nodes.append(&mut more_nodes)?;
        self.roots.append(&mut more_roots)?;
        self.texts.append(&mut more_texts)?;
        Ok(())
    }

    /// The nodes that the marks reach in a document, by rising id. `ids` is the index of that document.
    pub fn reach<L: Ledger>(
        &self,
        alloc: Global,
        dom: &Dom,
        ids: &IdIndex,
        steps: &mut Steps<L>,
    ) -> Result<Ids, NoMemory>
        requires index { IsIndexOf dom.now ids.now }
        ensures value { IfOk result (λ nodes. nodes ≡ reach dom.now self.now) }
        ensures counted { steps.new ≤ steps.old + 3 * weight dom.now self.now }
    {
        dom.keeps_tree();
        let nodes = self.nodes.as_slice();
        let roots = self.roots.as_slice();
        let texts = self.texts.as_slice();
        let found = reached(alloc, dom, ids, nodes, roots, texts, steps)?;
        Ok(found)
    }
}
