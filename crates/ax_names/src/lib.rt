//! Names that are flat and cut while they are made.
#![tactic(auto)]

ghost use Rattle.std.specs.Prelude.{◌≡◌, ◌++◌, List, map, true};
ghost use Rattle.ax_base.specs.Characters.{Chars, is_blank, flat, cut, joined_by_spaces};
ghost use Rattle.ax_base.specs.Said.{spaced};
ghost use Rattle.ax_names.specs.Pieces.{is_empty, piece_of, joined, flattened, between_spaces, all_apart, name_of, has_no_words, has_nothing};

mod aria_label;
mod aria_labelledby;
mod blocks;
mod embedded_control;
mod first_said;
mod front;
mod gather;
mod hidden;
mod host_language_label;
mod memo;
mod name_and_description;
mod name_from_content;
mod naming;
mod one_node;
mod order;
mod pieces;
mod said;
mod scope;
mod session;
mod targets;
mod text_alternative;
mod tooltip;
mod with_references;

pub use blocks::is_block;
pub use hidden::is_hidden;
pub use host_language_label::is_button_field;
pub use naming::{Named, element_description, element_name, flat_and_cut};
pub use one_node::{description_of, name_of};
pub use pieces::Piece;
pub use said::{said_plain, said_shown, said_whole};
pub use session::Names;
pub use text_alternative::{said_as_child, said_by};

/// The pieces of some texts tell the piece of those texts put together, and the name that they make.
///
/// It is a law of the definitions, which this call carries.
pub fn pieces_tell()
    ensures together { (a b : Chars) → piece_of (a ++ b) ≡ joined (piece_of a) (piece_of b) }
    ensures again { (t : Chars) → piece_of (flat t) ≡ flattened (piece_of t) }
    ensures apart { (ts : List Chars) → piece_of (joined_by_spaces (map flat ts)) ≡ flattened (piece_of (all_apart ts)) }
    ensures between { (t : Chars) → piece_of (spaced true t) ≡ between_spaces (piece_of t) }
    ensures name { (t : Chars) → name_of (piece_of t) ≡ cut (flat t) }
    ensures blank { (t : Chars) → has_no_words (piece_of t) ≡ is_blank t }
    ensures empty { (t : Chars) → has_nothing (piece_of t) ≡ is_empty t }
{}
