//! Texts that are gathered, whole or as pieces.
ghost use Rattle.std.specs.Prelude.{◌≡◌, ◌++◌, [], true, IfOk, OnOk};
ghost use Rattle.ax_base.specs.Characters.{Chars, is_blank, flat};
ghost use Rattle.ax_base.specs.Said.{spaced};
ghost use Rattle.ax_names.specs.Pieces.{piece_of};

use crate::pieces::Piece;
use crate::pieces_tell;
use ax_base::{NoMemory, Text};
use std::alloc::Global;

/// A text that is put together from others: a whole text, or a piece, which is flat and cut.
///
/// Where a call has no memory left, the text is of no more use.
pub trait Gather: Drop {
    ghost of: { Chars → Self };

    /// The empty text. It takes no memory.
    fn empty(alloc: Global) -> Self
        ensures { result ≡ of [] };

    /// The text of a string.
    fn from_str(alloc: Global, text: &str) -> Result<Self, NoMemory>
        ensures { IfOk result (λ g. g ≡ of text.now) };

    /// An equal copy.
    fn copy(&self, alloc: Global) -> Result<Self, NoMemory>
        ensures { IfOk result (λ g. g ≡ self.now) };

    /// Adds another text at the end.
    fn append(&mut self, other: &Self) -> Result<(), NoMemory>
        ensures { OnOk result ((a b : Chars) → self.old ≡ of a → other.now ≡ of b → self.new ≡ of (a ++ b)) };

    /// Puts a space before the text and one after it.
    fn into_spaced(self, alloc: Global) -> Result<Self, NoMemory>
        ensures { IfOk result (λ g. (a : Chars) → self ≡ of a → g ≡ of (spaced true a)) };

    /// Makes the text flat.
    fn into_flat(self, alloc: Global) -> Result<Self, NoMemory>
        ensures { IfOk result (λ g. (a : Chars) → self ≡ of a → g ≡ of (flat a)) };

    /// Whether the text has nothing but white space.
    fn is_blank(&self) -> bool
        ensures { (a : Chars) → self.now ≡ of a → result ≡ is_blank a };
}

impl Gather for Text {
    ghost of = { λ t. t };

    fn empty(alloc: Global) -> Text {
        Text::new(alloc)
    }

    fn from_str(alloc: Global, text: &str) -> Result<Text, NoMemory> {
        Text::from_str(alloc, text)
    }

    fn copy(&self, alloc: Global) -> Result<Text, NoMemory> {
        self.copy(alloc)
    }

    fn append(&mut self, other: &Text) -> Result<(), NoMemory> {
        self.push_str(other.as_str())
    }

    fn into_spaced(self, alloc: Global) -> Result<Text, NoMemory> {
        let mut apart = Text::from_str(alloc, " ")?;
        apart.push_str(self.as_str())?;
        apart.push_str(" ")?;
        Ok(apart)
    }

    fn into_flat(self, alloc: Global) -> Result<Text, NoMemory> {
        ax_base::flat(alloc, self.as_str())
    }

    fn is_blank(&self) -> bool {
        self.is_blank()
    }
}

impl Gather for Piece {
    ghost of = { piece_of };

    fn empty(alloc: Global) -> Piece {
        Piece::empty(alloc)
    }

    fn from_str(alloc: Global, text: &str) -> Result<Piece, NoMemory> {
        Piece::of(alloc, text)
    }

    fn copy(&self, alloc: Global) -> Result<Piece, NoMemory> {
        self.copy(alloc)
    }

    fn append(&mut self, other: &Piece) -> Result<(), NoMemory> {
        pieces_tell();
        self.append(other)
    }

    fn into_spaced(self, _alloc: Global) -> Result<Piece, NoMemory> {
        pieces_tell();
        let mut apart = self;
        apart.put_between_spaces();
        Ok(apart)
    }

    fn into_flat(self, _alloc: Global) -> Result<Piece, NoMemory> {
        pieces_tell();
        let mut level = self;
        level.flatten();
        Ok(level)
    }

    fn is_blank(&self) -> bool {
        pieces_tell();
        self.is_blank()
    }
}
