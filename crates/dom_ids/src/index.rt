//! The index of a document.
ghost use Rattle.std.specs.Prelude.{◌≡◌, IfOk, OnOk, true, false, bytes_eq, if◌then◌else◌};
ghost use Rattle.std.specs.List.Sorted.{IsStrictlyIncreasing};
ghost use Rattle.ax_base.specs.Characters.{Chars};
ghost use Rattle.ax_base.specs.Document.{Document, target};
ghost use Rattle.dom_ids.specs.Changing.{carried_by, labelled_by, named_by, unless_empty};
ghost use Rattle.dom_ids.specs.Index.{carriers, namers, labels, no_entry, entry_at, IsIndexOf};

use crate::below::nodes_below;
use crate::change::Change;
use ax_base::{Ids, NoMemory, ObjId, Steps};
use ax_dom::{Dom, add_rising};
use std::alloc::Global;
use std::collections::HashMap;
use std::sync::ledger::Ledger;

/// What is kept of a text.
#[derive(Drop)]
pub(crate) struct Entry {
    /// The first element in tree order with that `id`.
    pub(crate) first: Option<ObjId>,
    /// The elements with that `id`, by rising number.
    pub(crate) carriers: Ids,
    /// The elements that refer to that `id`, by rising number.
    pub(crate) namers: Ids,
    /// The `label` elements for that `id`, in tree order.
    pub(crate) labels: Ids,
}

/// The elements of a document by the texts of their `id`, of their references, and of the `for` of labels.
#[derive(Drop)]
pub struct IdIndex {
    entries: HashMap<String, Entry>,
}

impl Entry {
    /// What is kept of a text that no element has.
    fn new(alloc: Global) -> Entry
        ensures { result ≡ no_entry }
    {
        Entry {
            first: None,
            carriers: Ids::new(alloc),
            namers: Ids::new(alloc),
            labels: Ids::new(alloc),
        }
    }

    /// An element with the `id` comes, behind the others in tree order, or goes.
    pub(crate) fn carry(&mut self, change: Change, id: ObjId, text: &str) -> Result<(), NoMemory>
        requires rising { IsStrictlyIncreasing self.old.carriers }
        ensures { OnOk result (self.new ≡ carried_by change id text.now self.old) }
    {
        match change {
            Change::Comes => {
                add_rising(&mut self.carriers, id)?;
                self.first = self.first.or(unless_empty(text, Some(id)));
                Ok(())
            }
            Change::Goes => {
                self.carriers.take_out(id);
                Ok(())
            }
        }
    }

    /// A `label` comes, behind the others, or goes.
    pub(crate) fn label(&mut self, change: Change, id: ObjId) -> Result<(), NoMemory>
        ensures { OnOk result (self.new ≡ labelled_by change id self.old) }
    {
        match change {
            Change::Comes => {
                self.labels.push(id)?;
                Ok(())
            }
            Change::Goes => {
                self.labels.take_out(id);
                Ok(())
            }
        }
    }

    /// An element that refers to the `id` comes or goes.
    pub(crate) fn name(&mut self, change: Change, id: ObjId) -> Result<(), NoMemory>
        requires rising { IsStrictlyIncreasing self.old.namers }
        ensures { OnOk result (self.new ≡ named_by change id self.old) }
    {
        match change {
            Change::Comes => {
                add_rising(&mut self.namers, id)?;
                Ok(())
            }
            Change::Goes => {
                self.namers.take_out(id);
                Ok(())
            }
        }
    }

    /// Whether it is what is kept of a text that no element has.
    fn is_empty(&self) -> bool
        ensures { result ≡ true → self.now ≡ no_entry }
    {
        self.first.is_none()
            && self.carriers.as_slice().is_empty()
            && self.namers.as_slice().is_empty()
            && self.labels.as_slice().is_empty()
    }
}

/// The element that is found for a text; an empty text names none.
pub(crate) fn unless_empty(text: &str, found: Option<ObjId>) -> Option<ObjId>
    ensures { result ≡ unless_empty text.now found }
{
    if text.is_empty() { None } else { found }
}

impl IdIndex {
    /// The index of a document.
    pub fn new<L: Ledger>(
        alloc: Global,
        dom: &Dom,
        steps: &mut Steps<L>,
    ) -> Result<IdIndex, NoMemory>
        ensures { IfOk result (λ index. IsIndexOf dom.now index) }
    {
        dom.keeps_tree();
        let nodes = nodes_below(alloc, dom, ObjId::ROOT, steps)?;
        let mut index = IdIndex::empty(alloc);
        index.change_nodes(alloc, Change::Comes, dom, nodes.as_slice(), steps)?;
        Ok(index)
    }

    /// The first element in tree order with that `id`, or `None` exactly where there is none or the text is empty.
    pub fn first(&self, text: &str) -> Option<ObjId>
        ensures { (d : Document) → IsIndexOf d self.now → result ≡ target d text.now }
    {
        match self.entries.get(text) {
            Some(entry) => entry.first,
            None => None,
        }
    }

    /// The elements with that `id`, by rising number.
    pub fn carriers(&self, text: &str) -> &[ObjId]
        ensures { (d : Document) → IsIndexOf d self.now → result.now ≡ carriers d text.now }
    {
        match self.entries.get(text) {
            Some(entry) => entry.carriers.as_slice(),
            None => &[],
        }
    }

    /// The elements that name that `id` in the first eight tokens of `aria-labelledby` or of `aria-describedby`, by
    /// rising number.
    pub fn namers(&self, text: &str) -> &[ObjId]
        ensures { (d : Document) → IsIndexOf d self.now → result.now ≡ namers d text.now }
    {
        match self.entries.get(text) {
            Some(entry) => entry.namers.as_slice(),
            None => &[],
        }
    }

    /// The `label` elements for that `id`, in tree order.
    pub fn labels(&self, text: &str) -> &[ObjId]
        ensures { (d : Document) → IsIndexOf d self.now → result.now ≡ labels d text.now }
    {
        match self.entries.get(text) {
            Some(entry) => entry.labels.as_slice(),
            None => &[],
        }
    }

    /// No texts.
    fn empty(alloc: Global) -> IdIndex
        ensures { (x : Chars) → entry_at result x ≡ no_entry }
    {
        IdIndex {
            entries: HashMap::new(alloc),
        }
    }

    /// Takes out what is kept of a text.
    pub(crate) fn take(&mut self, alloc: Global, text: &str) -> Entry
        ensures value { result ≡ entry_at self.old text.now }
        ensures others { (x : Chars) → bytes_eq x text.now ≡ false → entry_at self.new x ≡ entry_at self.old x }
    {
        match self.entries.remove(text) {
            Some(entry) => entry,
            None => Entry::new(alloc),
        }
    }

    /// Keeps an entry of a text, in place of the one that is kept.
    pub(crate) fn put(&mut self, alloc: Global, text: &str, entry: Entry) -> Result<(), NoMemory>
        ensures { OnOk result ((x : Chars) → entry_at self.new x ≡ (if bytes_eq x text.now then entry else entry_at self.old x)) }
    {
        if entry.is_empty() {
            self.entries.remove(text);
            return Ok(());
        }
        let key = String::from_str(alloc, text)?;
        self.entries.insert(key, entry)?;
        Ok(())
    }
}
