//! The label that the host language gives (AccName 1.2, section 4.3.2, 'Host Language Label').
ghost use Rattle.std.specs.Prelude.{◌≡◌, IfOk};
ghost use Rattle.ax_base.specs.AccessibleNames.{labelled_text, host_label_of};
ghost use Rattle.ax_names.specs.Pieces.{piece_of};

use crate::sources::Sources;
use ax_base::{Attrs, NoMemory, ObjId, is_field};
use ax_names::{Piece, is_button_field, pieces_tell};
use std::alloc::Global;

/// The name part for the label that the host language gives to an element.
pub(crate) fn host_label(
    alloc: Global,
    sources: &Sources<'_>,
    id: ObjId,
    tag: &str,
    attrs: &Attrs,
) -> Result<Piece, NoMemory>
    ensures { IfOk result (λ p. p ≡ piece_of (host_label_of sources.now id tag.now attrs.now)) }
{
    if tag == "img" {
        return Piece::of(alloc, attrs.text("alt"));
    }
    if is_button_field(tag, attrs) {
        return Piece::of(alloc, attrs.text("value"));
    }
    if !is_field(tag) {
        return Ok(Piece::empty(alloc));
    }
    labelled(alloc, sources, attrs.text("id"), id)
}

/// The name part for what the first `label` for an id says, where that id names the node.
fn labelled(alloc: Global, sources: &Sources<'_>, text: &str, id: ObjId) -> Result<Piece, NoMemory>
    ensures { IfOk result (λ p. p ≡ piece_of (labelled_text sources.now text.now id)) }
{
    pieces_tell();
    let mut said = Piece::empty(alloc);
    let Some(first) = sources.first(text) else {
        return Ok(said);
    };
    if first != id {
        return Ok(said);
    }
    let Some(label) = sources.label(text) else {
        return Ok(said);
    };
    sources.add_said(label, &mut said)?;
    said.flatten();
    Ok(said)
}
