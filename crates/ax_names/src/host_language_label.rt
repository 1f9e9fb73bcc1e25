//! The labels that HTML gives to elements (AccName 1.2, section 4.3.2, step 2E, 'Host Language Label').
ghost use Rattle.std.specs.Prelude.{◌≡◌, IfOk, OnOk};
ghost use Rattle.ax_base.specs.Said.{is_button_field};
ghost use Rattle.ax_base.specs.AccessibleNames.{labelled_text, host_label_of};
ghost use Rattle.ax_names.specs.Pieces.{piece_of};
ghost use Rattle.ax_names.specs.Sessions.{AreNamesOf};

use crate::aria_labelledby::push_node;
use crate::pieces::Piece;
use crate::session::Names;
use ax_base::{Attrs, NoMemory, ObjId, Steps, is_field};
use ax_dom::Dom;
use std::alloc::Global;
use std::sync::ledger::Ledger;

/// The label that the host language gives to an element, as a piece.
pub(crate) fn host_label<L: Ledger>(
    alloc: Global,
    dom: &Dom,
    names: &mut Names,
    id: ObjId,
    tag: &str,
    attrs: &Attrs,
    steps: &mut Steps<L>,
) -> Result<Piece, NoMemory>
    requires names { AreNamesOf dom.now names.old }
    ensures value { IfOk result (λ p. p ≡ piece_of (host_label_of dom.now id tag.now attrs.now)) }
    ensures names { OnOk result (AreNamesOf dom.now names.new) }
{
    if tag == "img" {
        return Piece::of(alloc, attrs.text("alt"));
    }
    if is_button_field(tag, attrs) {
        return Piece::of(alloc, attrs.text("value"));
    }
    if !is_field(tag) {
        return Ok(Piece::empty(alloc));
    }
    labelled(alloc, dom, names, attrs.text("id"), id, steps)
}

/// What the first `label` for an id says, as a piece, where that id names the node.
fn labelled<L: Ledger>(
    alloc: Global,
    dom: &Dom,
    names: &mut Names,
    text: &str,
    id: ObjId,
    steps: &mut Steps<L>,
) -> Result<Piece, NoMemory>
    requires names { AreNamesOf dom.now names.old }
    ensures value { IfOk result (λ p. p ≡ piece_of (labelled_text dom.now text.now id)) }
    ensures names { OnOk result (AreNamesOf dom.now names.new) }
{
    let mut said = Piece::empty(alloc);
    if text.is_empty() {
        return Ok(said);
    }
    let found = names.sayings.first(alloc, dom, text, steps)?;
    let Some(first) = found else {
        return Ok(said);
    };
    if first != id {
        return Ok(said);
    }
    let labels = names.sayings.label(alloc, dom, text, steps)?;
    let Some(label) = labels else {
        return Ok(said);
    };
    push_node(alloc, dom, &mut names.sayings, label, &mut said, steps)?;
    Ok(said)
}

/// Whether an element is an `input` whose word of `type` is button, submit or reset.
pub fn is_button_field(tag: &str, attrs: &Attrs) -> bool
    ensures { result ≡ is_button_field tag.now attrs.now }
{
    tag == "input"
        && (attrs.has_word("type", "button")
            || attrs.has_word("type", "submit")
            || attrs.has_word("type", "reset"))
}
