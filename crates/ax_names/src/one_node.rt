//! The name and the description of one node.
ghost use Rattle.std.specs.Prelude.{◌≡◌, IfOk, IsTrue};
ghost use Rattle.ax_base.specs.Document.{has};
ghost use Rattle.ax_base.specs.AccessibleNames.{name_of, description_of};

use crate::session::Names;
use ax_base::{NoMemory, ObjId, Steps, Text};
use ax_dom::Dom;
use ax_roles::node_role;
use std::alloc::Global;
use std::sync::ledger::Ledger;

/// The accessible name of a node, flattened and cut at 512 characters (AccName 1.2, section 4.1). At a reference it
/// indexes the ids of the document; where many nodes are asked for, `Names` does that once.
pub fn name_of<L: Ledger>(
    alloc: Global,
    dom: &Dom,
    id: ObjId,
    steps: &mut Steps<L>,
) -> Result<Text, NoMemory>
    requires known { IsTrue (has dom.now id) }
    ensures { IfOk result (λ t. t ≡ name_of dom.now id) }
{
    let Some(cell) = dom.cell(id, steps) else {
        return Ok(Text::new(alloc));
    };
    let mut names = Names::new(alloc);
    names.name_of(alloc, dom, cell, node_role(cell.id, &cell.body), steps)
}

/// The accessible description of a node, flattened and cut at 512 characters (AccName 1.2, section 4.2). At a reference
/// it indexes the ids of the document; where many nodes are asked for, `Names` does that once.
pub fn description_of<L: Ledger>(
    alloc: Global,
    dom: &Dom,
    id: ObjId,
    steps: &mut Steps<L>,
) -> Result<Text, NoMemory>
    requires known { IsTrue (has dom.now id) }
    ensures { IfOk result (λ t. t ≡ description_of dom.now id) }
{
    let Some(cell) = dom.cell(id, steps) else {
        return Ok(Text::new(alloc));
    };
    let mut names = Names::new(alloc);
    names.description_of(alloc, dom, cell, node_role(cell.id, &cell.body), steps)
}
