//! What is kept of each node of the document.
ghost use Rattle.std.specs.Prelude.{◌≡◌, ◌<◌, ◌≤◌, ◌+◌, ◌*◌, length, IfOk};
ghost use Rattle.dom_ids.specs.Index.{IsIndexOf};
ghost use Rattle.node_order.specs.Orders.{IsFromAbove};
ghost use Rattle.live_tree.specs.Living.{ArePassesOf, ArePassesBut};

use crate::whole::all_from_above;
use ax_base::{NoMemory, ObjId, Steps};
use ax_dom::Dom;
use ctx_pass::Contexts;
use dom_ids::IdIndex;
use kids_pass::Kids;
use said_pass::Saids;
use std::alloc::Global;
use std::marker::Brand;
use std::sync::ledger::{Blank, Ledger};

/// The contexts and the kids of the nodes of a document, what they say and what they are called.
#[derive(Drop)]
pub(crate) struct Passes {
    pub(crate) contexts: Contexts,
    pub(crate) kids: Kids,
    pub(crate) saids: Saids,
}

impl Passes {
    /// Those of a document, of which `ids` is the index.
    fn new<L: Ledger>(
        alloc: Global,
        dom: &Dom,
        ids: &IdIndex,
        steps: &mut Steps<L>,
    ) -> Result<Passes, NoMemory>
        requires ids { IsIndexOf dom.now ids.now }
        ensures { IfOk result (λ p. ArePassesOf dom.now p) }
    {
        let all = all_from_above(alloc, dom, steps)?;
        let none = Passes {
            contexts: Contexts::new(alloc),
            kids: Kids::new(alloc),
            saids: Saids::new(alloc),
        };
        none.renew(alloc, dom, ids, all.as_slice(), steps)
    }

    /// Those of a document, where those of all nodes that are not in `down` are kept already. It reads each node of `down`,
    /// which are in an order from above, seven times at most. At an error what was kept is given up.
    pub(crate) fn renew<L: Ledger>(
        self,
        alloc: Global,
        dom: &Dom,
        ids: &IdIndex,
        down: &[ObjId],
        steps: &mut Steps<L>,
    ) -> Result<Passes, NoMemory>
        requires ids { IsIndexOf dom.now ids.now }
        requires order { IsFromAbove dom.now down.now }
        requires others { ArePassesBut dom.now self down.now }
        ensures value { IfOk result (λ p. ArePassesOf dom.now p) }
        ensures counted { steps.new ≤ steps.old + 7 * length down.now }
    {
        let Passes {
            contexts,
            kids,
            saids,
        } = self;
        let contexts = contexts.renew(dom, down, steps)?;
        let kids = kids.renew(alloc, dom, &contexts, down, steps)?;
        let saids = saids.renew(alloc, dom, ids, &contexts, down, steps)?;
        Ok(Passes {
            contexts,
            kids,
            saids,
        })
    }
}

/// Those of a document, of which `ids` is the index, on a count of their own.
pub(crate) fn passes_uncounted(alloc: Global, dom: &Dom, ids: &IdIndex) -> Result<Passes, NoMemory>
    requires ids { IsIndexOf dom.now ids.now }
    ensures { IfOk result (λ p. ArePassesOf dom.now p) }
{
    counted_passes::<Brand>(alloc, dom, ids, Blank::new(1))
}

/// Those of a document, where the reads are counted on a ledger that this blank opens.
fn counted_passes<L: Ledger>(
    alloc: Global,
    dom: &Dom,
    ids: &IdIndex,
    blank: Blank,
) -> Result<Passes, NoMemory>
    requires ids { IsIndexOf dom.now ids.now }
    requires name { blank.name ≡ L.name }
    requires parts { blank.parts ≡ L.parts }
    requires some { 0 < blank.parts }
    ensures { IfOk result (λ p. ArePassesOf dom.now p) }
{
    let (book, share) = blank.open::<L>();
    let mut steps = Steps::new(book, share);
    Passes::new(alloc, dom, ids, &mut steps)
}
