//! What nodes say, in one walk for each scope: their own texts and what their children say (AccName 1.2, section 4.3.2, step 2F).
ghost use Rattle.std.specs.Prelude.{◌≡◌, ◌&&◌, not, IfOk, OnOk, IsTrue, codes};
ghost use Rattle.ax_base.specs.Document.{has};
ghost use Rattle.ax_base.specs.Trees.{IsTree};
ghost use Rattle.ax_base.specs.Values.{text_in};
ghost use Rattle.ax_base.specs.Said.{child_text};
ghost use Rattle.ax_dom.specs.NodeMaps.{cell_of};
ghost use Rattle.ax_names.specs.OwnTexts.{element_shows};
ghost use Rattle.ax_names.specs.Scopes.{children_say};

use crate::blocks::{is_block, with_spaces};
use crate::gather::Gather;
use crate::scope::Scope;
use crate::text_alternative::{said_after, said_before};
use ax_base::{Attrs, Body, NoMemory, ObjId, Role, Steps};
use ax_dom::{Cell, Dom};
use ax_roles::node_role;
use std::alloc::Global;
use std::sync::ledger::Ledger;

/// Gathers what a node says.
pub fn said<G: Gather, S: Scope<G>, L: Ledger>(
    alloc: Global,
    dom: &Dom,
    scope: &mut S,
    id: ObjId,
    steps: &mut Steps<L>,
) -> Result<G, NoMemory>
    requires known { IsTrue (has dom.now id) }
    requires kept { S.keeps dom.now scope.old }
    ensures value { IfOk result (λ p. p ≡ G.of (S.says dom.now id)) }
    ensures kept { OnOk result (S.keeps dom.now scope.new) }
{
    let Some(cell) = dom.cell(id, steps) else {
        return Ok(G::empty(alloc));
    };
    said_by_cell(alloc, dom, scope, cell, steps)
}

/// Gathers what the node of a cell says: nothing where the scope leaves it out.
#[cycle(content)]
fn said_by_cell<G: Gather, S: Scope<G>, L: Ledger>(
    alloc: Global,
    dom: &Dom,
    scope: &mut S,
    cell: &Cell,
    steps: &mut Steps<L>,
) -> Result<G, NoMemory>
    requires tree { IsTree dom.now }
    requires cell { cell.now ≡ cell_of dom.now cell.now.id }
    requires kept { S.keeps dom.now scope.old }
    ensures value { IfOk result (λ p. p ≡ G.of (S.says dom.now cell.now.id)) }
    ensures kept { OnOk result (S.keeps dom.now scope.new) }
{
    if scope.is_left_out(cell.id, &cell.body) {
        return Ok(G::empty(alloc));
    }
    match &cell.body {
        Body::Words { chars, .. } => G::from_str(alloc, chars.as_str()),
        Body::Element { tag, attrs, .. } => {
            let role = node_role(cell.id, &cell.body);
            said_by_element(alloc, dom, scope, cell.id, role, tag.as_str(), attrs, steps)
        }
    }
}

/// Gathers what an element says that counts: what its references say, else what it says by itself, else what its children say,
/// else its `title`.
#[cycle(content)]
fn said_by_element<G: Gather, S: Scope<G>, L: Ledger>(
    alloc: Global,
    dom: &Dom,
    scope: &mut S,
    id: ObjId,
    role: Role,
    tag: &str,
    attrs: &Attrs,
    steps: &mut Steps<L>,
) -> Result<G, NoMemory>
    requires kept { S.keeps dom.now scope.old }
    ensures value { IfOk result (λ p. p ≡ G.of (element_shows (S.refers dom.now (text_in (codes "aria-labelledby") attrs.now)) role tag.now attrs.now (children_say dom.now S.leaves_out (S.says dom.now) id))) }
    ensures kept { OnOk result (S.keeps dom.now scope.new) }
{
    let referred: G = scope.referred(alloc, dom, attrs, steps)?;
    if let Some(said) = said_before(alloc, role, referred, tag, attrs)? {
        return Ok(said);
    }
    let below: G = said_below(alloc, dom, scope, id, steps)?;
    said_after(alloc, below, attrs)
}

/// Gathers what the children of a node say, or copies it where the scope has it from an earlier call.
#[cycle(content)]
fn said_below<G: Gather, S: Scope<G>, L: Ledger>(
    alloc: Global,
    dom: &Dom,
    scope: &mut S,
    id: ObjId,
    steps: &mut Steps<L>,
) -> Result<G, NoMemory>
    requires kept { S.keeps dom.now scope.old }
    ensures value { IfOk result (λ p. p ≡ G.of (children_say dom.now S.leaves_out (S.says dom.now) id)) }
    ensures kept { OnOk result (S.keeps dom.now scope.new) }
{
    if let Some(kept) = scope.kept_below(id) {
        return kept.copy(alloc);
    }
    said_by_children(alloc, dom, scope, id, steps)
}

/// Gathers what the children of a node say, one after another.
#[cycle(content)]
pub(crate) fn said_by_children<G: Gather, S: Scope<G>, L: Ledger>(
    alloc: Global,
    dom: &Dom,
    scope: &mut S,
    id: ObjId,
    steps: &mut Steps<L>,
) -> Result<G, NoMemory>
    requires kept { S.keeps dom.now scope.old }
    ensures value { IfOk result (λ p. p ≡ G.of (children_say dom.now S.leaves_out (S.says dom.now) id)) }
    ensures kept { OnOk result (S.keeps dom.now scope.new) }
{
    let mut joined: G = G::empty(alloc);
    for child in dom.children(id, steps) {
        let said: G = said_by_child(alloc, dom, scope, *child, steps)?;
        joined.append(&said)?;
    }
    Ok(joined)
}

/// Gathers what a child says, between spaces where it is a block that counts.
#[cycle(content)]
fn said_by_child<G: Gather, S: Scope<G>, L: Ledger>(
    alloc: Global,
    dom: &Dom,
    scope: &mut S,
    child: ObjId,
    steps: &mut Steps<L>,
) -> Result<G, NoMemory>
    requires known { IsTrue (has dom.now child) }
    requires kept { S.keeps dom.now scope.old }
    ensures value { IfOk result (λ p. p ≡ G.of (child_text dom.now S.leaves_out (S.says dom.now) child)) }
    ensures kept { OnOk result (S.keeps dom.now scope.new) }
{
    let Some(cell) = dom.cell(child, steps) else {
        return Ok(G::empty(alloc));
    };
    let said: G = said_by_cell(alloc, dom, scope, cell, steps)?;
    let apart = is_block(&cell.body) && !scope.is_left_out(cell.id, &cell.body);
    with_spaces(alloc, apart, said)
}
