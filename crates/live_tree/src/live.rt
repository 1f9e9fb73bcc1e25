//! The document of the page, and its tree at the last flush.
ghost use Rattle.std.specs.Prelude.{◌≡◌, ◌<◌, ◌≤◌, ◌+◌, ◌*◌, length, IfOk, IfErr, OnOk, OnErr, None, Some, if◌then◌else◌, option_copied};
ghost use Rattle.ax_base.specs.Document.{Document, root};
ghost use Rattle.ax_base.specs.Trees.{IsTree};
ghost use Rattle.ax_dom.specs.Bounds.{EditKeepsBounds};
ghost use Rattle.ax_dom.specs.Changes.{edited};
ghost use Rattle.ax_dom.specs.Refusals.{edit_cause, is_no_memory};
ghost use Rattle.ax_record.specs.Tree.{Tree, record_at};
ghost use Rattle.ax_record.specs.ObjectTrees.{IsObjectTree};
ghost use Rattle.ax_record.specs.Records.{tree};
ghost use Rattle.ax_batch.specs.Batches.{batch_between};
ghost use Rattle.ax_notice.specs.Candidates.{AreCandidates};
ghost use Rattle.ax_notice.specs.Notices.{notices_between};
ghost use Rattle.tree_diff.specs.Candidates.{HaveAllDiffering};
ghost use Rattle.dirty_set.specs.Reach.{joined_marks, weight};
ghost use Rattle.dirty_set.specs.Marking.{marked};
ghost use Rattle.dirty_set.specs.Alike.{AreAlike};
ghost use Rattle.dirty_set.specs.Covers.{Covers};
ghost use Rattle.live_tree.specs.LiveTrees.{unmarked};
ghost use Rattle.live_tree.specs.Living.{ArePassesOf, IsRightBut};

use crate::passes::{Passes, passes_uncounted};
use crate::renewing::{Turned, renewed_tree};
use ax_base::{Ids, Moment, NoMemory, Notices, ObjId, Steps};
use ax_batch::Batch;
use ax_dom::{Dom, Edit, EditCause};
use ax_fresh::tree_of;
use ax_notice::notices_among;
use ax_record::{Record, TreeView};
use kept_tree::{KeptTree, RenewedTree};
use marked_dom::{MarkedDom, UnmarkedDom};
use node_order::from_above;
use std::alloc::Global;
use std::marker::{Brand, Model};
use std::sync::ledger::{Blank, Ledger};
use tree_diff::batch_among;

/// A document that is edited, and the tree that it had at the last flush. As a view it is that tree.
pub struct LiveTree {
    flushed: KeptTree,
    dom: MarkedDom,
    passes: Passes,
}

/// Written out, so that whoever drops one makes one call in its proof.
impl Drop for LiveTree {
    fn drop(self) {
        let LiveTree {
            flushed: _flushed,
            dom: _dom,
            passes: _passes,
        } = self;
    }
}

/// What a flush hands on: what differs from the tree before to the tree after, and what is told of it.
#[derive(Drop)]
pub struct Flushed {
    /// The changes, exactly.
    pub batch: Batch,
    /// The notices of the moment, in their order.
    pub notices: Notices,
}

impl Model for LiveTree {
    ghost use Rattle.live_tree.specs.LiveTrees.{LiveDocument};
    ghost use Rattle.marked_dom.specs.Marked.{MarkedDocument};
    ghost use Rattle.live_tree.specs.Living.{IsLive};

    ghost Value = { LiveDocument };

    ghost view = { λ t. record { flushed = t.flushed; document = t.dom.document; marks = t.dom.marks } };

    ghost invariant = { λ t. IsLive t.flushed t.dom t.passes };
}

impl TreeView for LiveTree {
    ghost tree = { λ t. t.flushed };

    fn find(&self, id: ObjId) -> Option<&Record> {
        self.flushed.find(id)
    }

    fn root(&self) -> ObjId {
        self.flushed.root()
    }

    fn focus(&self) -> Option<ObjId> {
        self.flushed.focus()
    }
}

impl LiveTree {
    /// A document with its own tree.
    pub fn new(alloc: Global, dom: Dom) -> Result<LiveTree, NoMemory>
        ensures { IfOk result (λ t. t ≡ unmarked (tree dom) dom) }
    {
        let flushed = KeptTree::copy_of(alloc, &tree_of(alloc, &dom)?)?;
        let dom = UnmarkedDom::new(alloc, dom)?;
        let passes = passes_uncounted(alloc, dom.document(), dom.index())?;
        dom.document().keeps_tree();
        Ok(LiveTree {
            flushed,
            dom: dom.into_marked(alloc),
            passes,
        })
    }

    /// Edits the document, adds the marks of the edit, and leaves the tree of the last flush. It is refused with the first cause that holds, exactly
    /// where one holds, and for want of memory only where none does; then nothing changes. The rectangles of the edit
    /// are within bounds.
    pub fn edit(&mut self, alloc: Global, e: &Edit) -> Result<(), EditCause>
        requires within { EditKeepsBounds e.now }
        ensures accepted { OnOk result (edit_cause self.old.document e.now ≡ None) }
        ensures ok { OnOk result (self.new ≡ record { flushed = self.old.flushed; document = edited self.old.document e.now; marks = self.new.marks }) }
        ensures marks { OnOk result (AreAlike (joined_marks self.old.marks (marked self.old.document (edited self.old.document e.now) e.now)) self.new.marks) }
        ensures refused { IfErr result (λ cause. edit_cause self.old.document e.now ≡ (if is_no_memory cause then None else Some cause)) }
        ensures err { OnErr result (self.new ≡ self.old) }
    {
        if let Some(cause) = self.dom.document().cause_of(e) {
            return Err(cause);
        }
        edit_uncounted(alloc, &mut self.dom, e)?;
        Ok(())
    }

    /// Brings the tree to the present document, for a moment of that number. It counts the reads of the document: thirteen at
    /// most of what the marks weigh, at `Err` too. At `Err` the live tree is given up.
    pub fn flush<L: Ledger>(
        self,
        alloc: Global,
        moment: Moment,
        steps: &mut Steps<L>,
    ) -> Result<(LiveTree, Flushed), NoMemory>
        ensures tree { IfOk result (λ r. r.0 ≡ unmarked (tree self.document) self.document) }
        ensures batch { IfOk result (λ r. r.1.batch ≡ batch_between self.flushed (tree self.document)) }
        ensures notices { IfOk result (λ r. r.1.notices ≡ notices_between self.flushed (tree self.document) moment) }
        ensures counted { steps.new ≤ steps.old + 13 * weight self.document self.marks }
    {
        let LiveTree {
            flushed: kept,
            dom,
            passes,
        } = self;
        let (dom, reach) = dom.flush(alloc, steps)?;
        dom.document().keeps_tree();
        let (flushed, passes, sent) = renewed(alloc, kept, passes, &dom, &reach, moment, steps)?;
        let live = LiveTree {
            flushed,
            dom: dom.into_marked(alloc),
            passes,
        };
        Ok((live, sent))
    }
}

/// The tree of a document and what is kept of its nodes, made of those of an earlier document that is alike at each node
/// but some; and what differs, and what is told of it. It reads each of these nodes ten times at most, and no other.
fn renewed<L: Ledger>(
    alloc: Global,
    kept: KeptTree,
    passes: Passes,
    dom: &UnmarkedDom,
    reach: &Ids,
    moment: Moment,
    steps: &mut Steps<L>,
) -> Result<(KeptTree, Passes, Flushed), NoMemory>
    requires right { IsRightBut kept dom.now passes reach.now }
    ensures tree { IfOk result (λ r. r.0 ≡ tree dom.now) }
    ensures passes { IfOk result (λ r. ArePassesOf dom.now r.1) }
    ensures batch { IfOk result (λ r. r.2.batch ≡ batch_between kept (tree dom.now)) }
    ensures notices { IfOk result (λ r. r.2.notices ≡ notices_between kept (tree dom.now) moment) }
    ensures counted { steps.new ≤ steps.old + 10 * length reach.now }
{
    let now = dom.document();
    now.keeps_tree();
    let nodes = reach.as_slice();
    let order = from_above(alloc, now, nodes, steps)?;
    let down = order.as_slice();
    let passes = passes.renew(alloc, now, dom.index(), down, steps)?;
    let Turned { tree, near } = renewed_tree(alloc, kept, now, &passes, nodes, down, steps)?;
    let sent = told(alloc, &tree, near.as_slice(), moment)?;
    let settled = tree.settle()?;
    Ok((settled, passes, sent))
}

/// What differs from a tree to the one that it becomes, and what is told of it, which is of some ids alone.
fn told(
    alloc: Global,
    turned: &RenewedTree,
    near: &[ObjId],
    moment: Moment,
) -> Result<Flushed, NoMemory>
    requires differ { HaveAllDiffering turned.now.before turned.now.after turned.now.places }
    requires told { AreCandidates turned.now.before turned.now.after near.now }
    ensures batch { IfOk result (λ r. r.batch ≡ batch_between turned.now.before turned.now.after) }
    ensures notices { IfOk result (λ r. r.notices ≡ notices_between turned.now.before turned.now.after moment) }
{
    let before = turned.before();
    let batch = batch_among(alloc, before, turned, turned.places())?;
    let notices = notices_among(alloc, before, turned, moment, near)?;
    Ok(Flushed { batch, notices })
}

/// Flushes a live tree on a count of its own, for a caller that counts no reads.
pub fn flush_uncounted(
    alloc: Global,
    live: LiveTree,
    moment: Moment,
) -> Result<(LiveTree, Flushed), NoMemory>
    ensures tree { IfOk result (λ r. r.0 ≡ unmarked (tree live.document) live.document) }
    ensures batch { IfOk result (λ r. r.1.batch ≡ batch_between live.flushed (tree live.document)) }
    ensures notices { IfOk result (λ r. r.1.notices ≡ notices_between live.flushed (tree live.document) moment) }
{
    counted_flush::<Brand>(alloc, live, moment, Blank::new(1))
}

/// The flush, where the reads of the document are counted on a ledger that this blank opens.
fn counted_flush<L: Ledger>(
    alloc: Global,
    live: LiveTree,
    moment: Moment,
    blank: Blank,
) -> Result<(LiveTree, Flushed), NoMemory>
    requires name { blank.name ≡ L.name }
    requires parts { blank.parts ≡ L.parts }
    requires some { 0 < blank.parts }
    ensures tree { IfOk result (λ r. r.0 ≡ unmarked (tree live.document) live.document) }
    ensures batch { IfOk result (λ r. r.1.batch ≡ batch_between live.flushed (tree live.document)) }
    ensures notices { IfOk result (λ r. r.1.notices ≡ notices_between live.flushed (tree live.document) moment) }
{
    let (book, share) = blank.open::<L>();
    let mut steps = Steps::new(book, share);
    live.flush(alloc, moment, &mut steps)
}

/// Edits a document that nothing refuses to edit, on a count of its own.
fn edit_uncounted(alloc: Global, dom: &mut MarkedDom, e: &Edit) -> Result<(), NoMemory>
    requires within { EditKeepsBounds e.now }
    requires free { edit_cause dom.old.document e.now ≡ None }
    ensures ok { OnOk result (dom.new.document ≡ edited dom.old.document e.now) }
    ensures marks { OnOk result (AreAlike (joined_marks dom.old.marks (marked dom.old.document (edited dom.old.document e.now) e.now)) dom.new.marks) }
    ensures covers { OnOk result ((flushed : Document) → Covers flushed dom.old.document dom.old.marks → Covers flushed dom.new.document dom.new.marks) }
    ensures err { OnErr result (dom.new ≡ dom.old) }
{
    counted_edit::<Brand>(alloc, dom, e, Blank::new(1))
}

/// Edits a document that nothing refuses to edit, where the reads are counted on a ledger that this blank opens.
fn counted_edit<L: Ledger>(
    alloc: Global,
    dom: &mut MarkedDom,
    e: &Edit,
    blank: Blank,
) -> Result<(), NoMemory>
    requires within { EditKeepsBounds e.now }
    requires free { edit_cause dom.old.document e.now ≡ None }
    requires name { blank.name ≡ L.name }
    requires parts { blank.parts ≡ L.parts }
    requires some { 0 < blank.parts }
    ensures ok { OnOk result (dom.new.document ≡ edited dom.old.document e.now) }
    ensures marks { OnOk result (AreAlike (joined_marks dom.old.marks (marked dom.old.document (edited dom.old.document e.now) e.now)) dom.new.marks) }
    ensures covers { OnOk result ((flushed : Document) → Covers flushed dom.old.document dom.old.marks → Covers flushed dom.new.document dom.new.marks) }
    ensures err { OnErr result (dom.new ≡ dom.old) }
{
    let (book, share) = blank.open::<L>();
    let mut steps = Steps::new(book, share);
    dom.edit(alloc, e, &mut steps)
}
