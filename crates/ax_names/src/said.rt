//! What nodes say, as whole texts: nothing of them is made flat, cut, or kept for another call.
ghost use Rattle.std.specs.Prelude.{◌≡◌, IfOk, IsTrue};
ghost use Rattle.ax_base.specs.Document.{has};
ghost use Rattle.ax_base.specs.Said.{said0, said_all};
ghost use Rattle.ax_base.specs.References.{said1};

use crate::name_from_content::said;
use crate::scope::{Shown, Whole};
use crate::session::Sayings;
use ax_base::{NoMemory, ObjId, Steps, Text};
use ax_dom::Dom;
use std::alloc::Global;
use std::sync::ledger::Ledger;

/// What a node says, where no reference is followed.
pub fn said_plain<L: Ledger>(
    alloc: Global,
    dom: &Dom,
    id: ObjId,
    steps: &mut Steps<L>,
) -> Result<Text, NoMemory>
    requires known { IsTrue (has dom.now id) }
    ensures { IfOk result (λ t. t ≡ said0 dom.now id) }
{
    said(alloc, dom, &mut Shown {}, id, steps)
}

/// All that a node says, also what hides, where no reference is followed.
pub fn said_whole<L: Ledger>(
    alloc: Global,
    dom: &Dom,
    id: ObjId,
    steps: &mut Steps<L>,
) -> Result<Text, NoMemory>
    requires known { IsTrue (has dom.now id) }
    ensures { IfOk result (λ t. t ≡ said_all dom.now id) }
{
    said(alloc, dom, &mut Whole {}, id, steps)
}

/// What a node says as a part of a name: its own references count, and those of what is below it.
pub fn said_shown<L: Ledger>(
    alloc: Global,
    dom: &Dom,
    id: ObjId,
    steps: &mut Steps<L>,
) -> Result<Text, NoMemory>
    requires known { IsTrue (has dom.now id) }
    ensures { IfOk result (λ t. t ≡ said1 dom.now id) }
{
    let mut sayings: Sayings<Text> = Sayings::new(alloc);
    said(alloc, dom, &mut sayings, id, steps)
}
