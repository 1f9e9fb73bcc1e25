//! What a node says: its own texts, what its references say and what its children say, in their order (AccName 1.2, section 4.3.2).
ghost use Rattle.std.specs.Prelude.{◌≡◌, IfOk};
ghost use Rattle.ax_base.specs.Characters.{Chars};
ghost use Rattle.ax_base.specs.Said.{said_by};
ghost use Rattle.ax_names.specs.OwnTexts.{said_or, own_text, title_said, unless_blank, element_shows, said_as_child};
ghost use Rattle.ax_names.specs.Pieces.{piece_of};

use crate::aria_label::own_text;
use crate::blocks::{is_block, with_spaces};
use crate::gather::Gather;
use crate::pieces::Piece;
use crate::tooltip::title_said;
use ax_base::{Attrs, Body, NoMemory, Role, is_blank};
use std::alloc::Global;

/// The piece that a node of a role gives to its parent: an empty one where the node is silent, and one between spaces where it
/// is a block.
pub fn said_as_child(
    alloc: Global,
    silent: bool,
    role: Role,
    referred: Piece,
    node: &Body,
    below: Piece,
) -> Result<Piece, NoMemory>
    ensures { IfOk result (λ p. (r b : Chars) → referred ≡ piece_of r → below ≡ piece_of b → p ≡ piece_of (said_as_child silent role r node.now b)) }
{
    if silent {
        return Ok(Piece::empty(alloc));
    }
    let said = said_by(alloc, role, referred, node, below)?;
    with_spaces(alloc, is_block(node), said)
}

/// The piece that a node of a role says, from the pieces that its references and its children say.
pub fn said_by(
    alloc: Global,
    role: Role,
    referred: Piece,
    node: &Body,
    below: Piece,
) -> Result<Piece, NoMemory>
    ensures { IfOk result (λ p. (r b : Chars) → referred ≡ piece_of r → below ≡ piece_of b → p ≡ piece_of (said_by role r node.now b)) }
{
    match node {
        Body::Words { chars, .. } => Piece::of(alloc, chars.as_str()),
        Body::Element { tag, attrs, .. } => {
            element_says(alloc, role, referred, tag.as_str(), attrs, below)
        }
    }
}

/// The piece that an element of a role says: what its references say, else its `aria-label`, else the text embedded in it, else
/// what its children say, else its `title`, the first that is not blank.
fn element_says(
    alloc: Global,
    role: Role,
    referred: Piece,
    tag: &str,
    attrs: &Attrs,
    below: Piece,
) -> Result<Piece, NoMemory>
    ensures { IfOk result (λ p. (r b : Chars) → referred ≡ piece_of r → below ≡ piece_of b → p ≡ piece_of (element_shows r role tag.now attrs.now b)) }
{
    if let Some(said) = said_before(alloc, role, referred, tag, attrs)? {
        return Ok(said);
    }
    said_after(alloc, below, attrs)
}

/// Gathers what an element of a role says before its children are asked: what its references say, else its `aria-label`, else
/// the text embedded in it. `None` means that all of them are blank.
pub(crate) fn said_before<G: Gather>(
    alloc: Global,
    role: Role,
    referred: G,
    tag: &str,
    attrs: &Attrs,
) -> Result<Option<G>, NoMemory>
    ensures { IfOk result (λ said. (r : Chars) → referred ≡ G.of r → said ≡ unless_blank G.of (said_or r (own_text role tag.now attrs.now))) }
{
    if !referred.is_blank() {
        return Ok(Some(referred));
    }
    let own = own_text(role, tag, attrs);
    if is_blank(own) {
        return Ok(None);
    }
    Ok(Some(G::from_str(alloc, own)?))
}

/// Gathers what an element says once its children are asked: what they say, else its `title`.
pub(crate) fn said_after<G: Gather>(alloc: Global, below: G, attrs: &Attrs) -> Result<G, NoMemory>
    ensures { IfOk result (λ said. (b : Chars) → below ≡ G.of b → said ≡ G.of (said_or b (title_said attrs.now))) }
{
    if !below.is_blank() {
        return Ok(below);
    }
    G::from_str(alloc, title_said(attrs))
}
