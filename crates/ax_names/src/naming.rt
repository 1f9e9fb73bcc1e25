//! The name and the description of an element, from the texts that may give them, in their order (AccName 1.2, sections 4.1 to
//! 4.3).
ghost use Rattle.std.specs.Prelude.{◌≡◌, IfOk, Some, None, if◌then◌else◌};
ghost use Rattle.ax_base.specs.Characters.{Chars, is_blank, flat, cut};
ghost use Rattle.ax_names.specs.OwnTexts.{element_called, named_from, described_from};
ghost use Rattle.ax_names.specs.Pieces.{piece_of};

use crate::pieces::Piece;
use crate::pieces_tell;
use crate::tooltip::title_said;
use ax_base::{Attrs, NoMemory, Role, Text, is_blank};
use ax_roles::{name_prohibited, names_from_content};
use std::alloc::Global;

/// The accessible name of an element.
#[derive(Drop)]
pub struct Named {
    /// At most 512 characters.
    pub name: Text,
    /// Whether the element may be named, and nothing before its `title` names it.
    pub by_title: bool,
}

/// The accessible name of an element of a role, from what its `aria-labelledby` refers to, its label by the host language, and
/// what its children say.
pub fn element_name(
    alloc: Global,
    role: Role,
    attrs: &Attrs,
    referred: &Piece,
    label: &Piece,
    below: &Piece,
) -> Result<Named, NoMemory>
    ensures { IfOk result (λ named. (r l b : Chars) → referred.now ≡ piece_of r → label.now ≡ piece_of l → below.now ≡ piece_of b → named ≡ named_from role attrs.now r l b) }
{
    pieces_tell();
    if name_prohibited(role) {
        return Ok(Named {
            name: flat_and_cut(alloc, "")?,
            by_title: false,
        });
    }
    if let Some(name) = name_before_title(alloc, role, attrs, referred, label, below)? {
        return Ok(Named {
            name,
            by_title: false,
        });
    }
    Ok(Named {
        name: flat_and_cut(alloc, title_said(attrs))?,
        by_title: true,
    })
}

/// The name that is given before the `title` is asked: by references, else by `aria-label`, else by the host language, else, where the role
/// is named from content, by the children.
fn name_before_title(
    alloc: Global,
    role: Role,
    attrs: &Attrs,
    referred: &Piece,
    label: &Piece,
    below: &Piece,
) -> Result<Option<Text>, NoMemory>
    ensures { IfOk result (λ name. (r l b : Chars) → referred.now ≡ piece_of r → label.now ≡ piece_of l → below.now ≡ piece_of b → name ≡ (if is_blank (element_called r l role attrs.now b) then None else Some (cut (flat (element_called r l role attrs.now b))))) }
{
    pieces_tell();
    if !referred.is_blank() {
        return Ok(Some(referred.name(alloc)?));
    }
    let own = attrs.text("aria-label");
    if !is_blank(own) {
        return Ok(Some(flat_and_cut(alloc, own)?));
    }
    if !label.is_blank() {
        return Ok(Some(label.name(alloc)?));
    }
    if names_from_content(role) && !below.is_blank() {
        return Ok(Some(below.name(alloc)?));
    }
    Ok(None)
}

/// The accessible description of an element, from what its `aria-describedby` refers to, where it is known whether its `title`
/// names it.
pub fn element_description(
    alloc: Global,
    attrs: &Attrs,
    referred: Piece,
    by_title: bool,
) -> Result<Text, NoMemory>
    ensures { IfOk result (λ t. (r : Chars) → referred ≡ piece_of r → t ≡ described_from attrs.now r by_title) }
{
    pieces_tell();
    if !referred.is_blank() {
        return Ok(referred.into_name());
    }
    if by_title {
        return flat_and_cut(alloc, "");
    }
    flat_and_cut(alloc, title_said(attrs))
}

/// A text, flattened and cut at 512 characters.
pub fn flat_and_cut(alloc: Global, text: &str) -> Result<Text, NoMemory>
    ensures { IfOk result (λ t. t ≡ cut (flat text.now)) }
{
    pieces_tell();
    Ok(Piece::of(alloc, text)?.into_name())
}
