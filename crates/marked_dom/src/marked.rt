//! The document that is edited, and what is known of its edits.
ghost use Rattle.std.specs.Prelude.{◌≡◌, ◌<◌, ◌≤◌, ◌+◌, ◌*◌, None, IfOk, IfSome, OnOk, OnErr};
ghost use Rattle.ax_base.specs.Document.{Document};
ghost use Rattle.ax_dom.specs.Bounds.{EditKeepsBounds};
ghost use Rattle.ax_dom.specs.Changes.{edited};
ghost use Rattle.ax_dom.specs.Refusals.{edit_cause};
ghost use Rattle.dom_ids.specs.Index.{IsIndexOf};
ghost use Rattle.dirty_set.specs.Reach.{no_marks, joined_marks, reach, weight};
ghost use Rattle.dirty_set.specs.Marking.{marked};
ghost use Rattle.dirty_set.specs.Alike.{AreAlike};
ghost use Rattle.dirty_set.specs.Covers.{Covers};

use ax_base::{Ids, NoMemory, Steps};
use ax_dom::{Dom, Edit};
use dirty_set::Marks;
use dom_ids::IdIndex;
use std::alloc::Global;
use std::marker::{Brand, Model};
use std::mem;
use std::sync::ledger::{Blank, Ledger};

/// A document, and the marks of its edits since the last flush. Beside it stands a second copy of it, which follows edit
/// by edit, so that an edit has the documents before and after it with no copy of the whole.
#[derive(Drop)]
pub struct MarkedDom {
    document: Dom,
    marks: Marks,
    index: Option<IdIndex>,
    spare: Option<Dom>,
}

impl Model for MarkedDom {
    ghost use Rattle.marked_dom.specs.Marked.{MarkedDocument, IsFollowed};

    ghost Value = { MarkedDocument };

    ghost view = { λ a. record { document = a.document; marks = a.marks } };

    ghost invariant = { λ a. IsFollowed a.document a.index a.spare };
}

impl MarkedDom {
    /// The document.
    pub fn document(&self) -> &Dom
        ensures { result.now ≡ self.now.document }
    {
        &self.document
    }

    /// Edits the document, and adds the marks of the edit. At an error the document and the marks are as they were, and
    /// the index and the second copy are made anew at the next call that needs them.
    pub fn edit<L: Ledger>(
        &mut self,
        alloc: Global,
        e: &Edit,
        steps: &mut Steps<L>,
    ) -> Result<(), NoMemory>
        requires within { EditKeepsBounds e.now }
        requires free { edit_cause self.old.document e.now ≡ None }
        ensures ok { OnOk result (self.new.document ≡ edited self.old.document e.now) }
        ensures marks { OnOk result (AreAlike (joined_marks self.old.marks (marked self.old.document (edited self.old.document e.now) e.now)) self.new.marks) }
        ensures covers { OnOk result ((flushed : Document) → Covers flushed self.old.document self.old.marks → Covers flushed self.new.document self.new.marks) }
        ensures err { OnErr result (self.new ≡ self.old) }
    {
        let spare = self.spare.take();
        let copy = copy_of(alloc, spare, &self.document)?;
        let next = applied(alloc, copy, e)?;
        let index = self.index.take();
        let before = index_of(alloc, index, &self.document, steps)?;
        let after = before.after(alloc, &self.document, &next, e, steps)?;
        self.marks
            .note(alloc, &self.document, &next, &after, e, steps)?;
        let old = mem::replace(&mut self.document, next);
        self.index = Some(after);
        self.spare = follows(alloc, old, e);
        Ok(())
    }

    /// The document without its marks, and what they reach, by rising id.
    pub fn flush<L: Ledger>(
        self,
        alloc: Global,
        steps: &mut Steps<L>,
    ) -> Result<(UnmarkedDom, Ids), NoMemory>
        ensures document { IfOk result (λ r. r.0 ≡ self.document) }
        ensures reach { IfOk result (λ r. r.1 ≡ reach self.document self.marks) }
        ensures counted { steps.new ≤ steps.old + 3 * weight self.document self.marks }
    {
        let MarkedDom {
            document,
            marks,
            index,
            spare,
        } = self;
        let index = index_uncounted(alloc, index, &document)?;
        let nodes = marks.reach(alloc, &document, &index, steps)?;
        let rest = UnmarkedDom {
            document,
            index,
            spare,
        };
        Ok((rest, nodes))
    }
}

/// A document that nothing has marked since the last flush, with the index of its ids. A clause sees it as the document.
pub struct UnmarkedDom {
    document: Dom,
    index: IdIndex,
    spare: Option<Dom>,
}

/// Written out, so that whoever drops one makes one call in its proof.
impl Drop for UnmarkedDom {
    fn drop(self) {
        let UnmarkedDom {
            document: _document,
            index: _index,
            spare: _spare,
        } = self;
    }
}

impl Model for UnmarkedDom {
    ghost use Rattle.std.specs.Prelude.{Some};
    ghost use Rattle.ax_base.specs.Document.{Document};
    ghost use Rattle.marked_dom.specs.Marked.{IsFollowed};

    ghost Value = { Document };

    ghost view = { λ a. a.document };

    ghost invariant = { λ a. IsFollowed a.document (Some a.index) a.spare };
}

impl UnmarkedDom {
    /// A document, of which the index is made. It counts no read.
    pub fn new(alloc: Global, document: Dom) -> Result<UnmarkedDom, NoMemory>
        ensures { IfOk result (λ d. d ≡ document) }
    {
        let index = index_uncounted(alloc, None, &document)?;
        Ok(UnmarkedDom {
            document,
            index,
            spare: None,
        })
    }

    /// The document.
    pub fn document(&self) -> &Dom
        ensures { result.now ≡ self.now }
    {
        &self.document
    }

    /// The index of its ids.
    pub fn index(&self) -> &IdIndex
        ensures { IsIndexOf self.now result.now }
    {
        &self.index
    }

    /// The document as one that is edited.
    pub fn into_marked(self, alloc: Global) -> MarkedDom
        ensures { result ≡ record { document = self; marks = no_marks } }
    {
        let UnmarkedDom {
            document,
            index,
            spare,
        } = self;
        MarkedDom {
            document,
            marks: Marks::empty(alloc),
            index: Some(index),
            spare,
        }
    }
}

/// A copy of a document: the one that is there, or a new one.
fn copy_of(alloc: Global, spare: Option<Dom>, document: &Dom) -> Result<Dom, NoMemory>
    requires { IfSome spare (λ s. s ≡ document.now) }
    ensures { IfOk result (λ dom. dom ≡ document.now) }
{
    match spare {
        Some(dom) => Ok(dom),
        None => document.copy(alloc),
    }
}

/// A document after an edit that nothing refuses. At an error it is given up.
fn applied(alloc: Global, document: Dom, e: &Edit) -> Result<Dom, NoMemory>
    requires within { EditKeepsBounds e.now }
    requires free { edit_cause document e.now ≡ None }
    ensures { IfOk result (λ dom. dom ≡ edited document e.now) }
{
    let mut dom = document;
    let edit = e.copy(alloc)?;
    dom.apply_accepted(alloc, edit)?;
    Ok(dom)
}

/// The document after an edit that nothing refuses, unless memory is missing.
fn follows(alloc: Global, document: Dom, e: &Edit) -> Option<Dom>
    requires within { EditKeepsBounds e.now }
    requires free { edit_cause document e.now ≡ None }
    ensures { IfSome result (λ dom. dom ≡ edited document e.now) }
{
    match applied(alloc, document, e) {
        Ok(dom) => Some(dom),
        Err(_) => None,
    }
}

/// The index of a document: the one that is there, or, where it is lost, a new one.
fn index_of<L: Ledger>(
    alloc: Global,
    index: Option<IdIndex>,
    document: &Dom,
    steps: &mut Steps<L>,
) -> Result<IdIndex, NoMemory>
    requires { IfSome index (λ i. IsIndexOf document.now i) }
    ensures { IfOk result (λ i. IsIndexOf document.now i) }
{
    match index {
        Some(index) => Ok(index),
        None => IdIndex::new(alloc, document, steps),
    }
}

/// The index of a document, where a new one is made on a count of its own.
fn index_uncounted(
    alloc: Global,
    index: Option<IdIndex>,
    document: &Dom,
) -> Result<IdIndex, NoMemory>
    requires { IfSome index (λ i. IsIndexOf document.now i) }
    ensures { IfOk result (λ i. IsIndexOf document.now i) }
{
    match index {
        Some(index) => Ok(index),
        None => counted_index::<Brand>(alloc, document, Blank::new(1)),
    }
}

/// The index of a document, where the reads are counted on a ledger that this blank opens.
fn counted_index<L: Ledger>(
    alloc: Global,
    document: &Dom,
    blank: Blank,
) -> Result<IdIndex, NoMemory>
    requires name { blank.name ≡ L.name }
    requires parts { blank.parts ≡ L.parts }
    requires some { 0 < blank.parts }
    ensures { IfOk result (λ i. IsIndexOf document.now i) }
{
    let (book, share) = blank.open::<L>();
    let mut steps = Steps::new(book, share);
    IdIndex::new(alloc, document, &mut steps)
}
