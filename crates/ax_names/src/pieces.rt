//! Pieces of a name.
ghost use Rattle.std.specs.Prelude.{◌≡◌, [], true, false, IfOk, OnOk};
ghost use Rattle.ax_names.specs.Pieces.{Phrase, begins_white, ends_white, piece_of, joined, flattened, between_spaces, name_of, has_no_words, has_nothing};

use crate::front::Front;
use ax_base::{NoMemory, Text};
use std::alloc::Global;
use std::marker::Model;

/// A text that is joined from many, flat and cut while it grows, since a name needs no more of it: the first 512 characters of the
/// flat text, whether more follow, whether the text began with white space, and, where no more follow, whether it ended with it.
///
/// After `NoMemory` the piece must not be used again.
#[derive(Drop)]
pub struct Piece {
    words: Front,
    starts: bool,
    ends: bool,
}

impl Model for Piece {
    ghost use Rattle.ax_names.specs.Pieces.{Phrase};

    ghost Value = { Phrase };

    ghost view = { λ p. record { opening = p.words; starts = p.starts; ends = p.ends } };
}

impl Piece {
    /// The piece of the empty text. It takes no memory.
    pub fn empty(alloc: Global) -> Piece
        ensures { result ≡ piece_of [] }
    {
        Piece {
            words: Front::new(alloc),
            starts: false,
            ends: false,
        }
    }

    /// The piece of a text.
    pub fn of(alloc: Global, text: &str) -> Result<Piece, NoMemory>
        ensures { IfOk result (λ p. p ≡ piece_of text.now) }
    {
        let mut piece = Piece::empty(alloc);
        piece.push(text)?;
        Ok(piece)
    }

    /// An equal copy.
    pub fn copy(&self, alloc: Global) -> Result<Piece, NoMemory>
        ensures { IfOk result (λ p. p ≡ self.now) }
    {
        Ok(Piece {
            words: self.words.copy(alloc)?,
            starts: self.starts,
            ends: self.ends,
        })
    }

    /// Adds a text at the end.
    pub fn push(&mut self, text: &str) -> Result<(), NoMemory>
        ensures { OnOk result (self.new ≡ joined self.old (piece_of text.now)) }
    {
        let bare = self.words.is_empty();
        let begins = begins_white(text);
        let ends = ends_white(text);
        let nothing = text.is_empty();
        self.words.put_flat(self.ends, text)?;
        self.starts = self.starts || (bare && begins);
        self.ends = !self.words.has_more() && (ends || (nothing && self.ends));
        Ok(())
    }

    /// Adds the text of another piece at the end.
    pub fn append(&mut self, other: &Piece) -> Result<(), NoMemory>
        ensures { OnOk result (self.new ≡ joined self.old other.now) }
    {
        let bare = self.words.is_empty();
        let blank = other.words.is_empty();
        let white = self.ends || other.starts;
        self.words.put_words(white, &other.words)?;
        let more = other.words.has_more();
        self.words.note_more(more);
        self.starts = self.starts || (bare && other.starts);
        self.ends = !self.words.has_more() && (other.ends || (blank && self.ends));
        Ok(())
    }

    /// Whether it stays the same whatever text is put behind it, since more follows already than it keeps. If so, how the text ended is
    /// forgotten.
    pub fn takes_no_more(&mut self) -> bool
        ensures full { result ≡ true → (other : Phrase) → self.new ≡ joined self.old other }
        ensures open { result ≡ false → self.new ≡ self.old }
    {
        if !self.words.has_more() || self.words.is_empty() {
            return false;
        }
        self.ends = false;
        true
    }

    /// Makes the text flat: the white space at its ends is gone.
    pub fn flatten(&mut self)
        ensures { self.new ≡ flattened self.old }
    {
        self.starts = false;
        self.ends = false;
    }

    /// Puts a space before the text and one after it.
    pub fn put_between_spaces(&mut self)
        ensures { self.new ≡ between_spaces self.old }
    {
        self.starts = true;
        self.ends = !self.words.has_more();
    }

    /// Whether the text has nothing but white space.
    pub fn is_blank(&self) -> bool
        ensures { result ≡ has_no_words self.now }
    {
        self.words.is_empty()
    }

    /// Whether the text has no character.
    pub fn is_empty(&self) -> bool
        ensures { result ≡ has_nothing self.now }
    {
        self.words.is_empty() && !self.starts
    }

    /// The name that the text makes.
    pub fn name(&self, alloc: Global) -> Result<Text, NoMemory>
        ensures { IfOk result (λ t. t ≡ name_of self.now) }
    {
        Text::from_str(alloc, self.words.as_str())
    }

    /// The name that the text makes. It takes no memory.
    pub fn into_name(self) -> Text
        ensures { result ≡ name_of self }
    {
        self.words.into_text()
    }
}

/// Whether a text begins with white space.
fn begins_white(text: &str) -> bool
    ensures { result ≡ begins_white text.now }
{
    match text.as_bytes().first() {
        Some(b) => b.is_ascii_whitespace(),
        None => false,
    }
}

/// Whether a text ends with white space.
fn ends_white(text: &str) -> bool
    ensures { result ≡ ends_white text.now }
{
    match text.as_bytes().last() {
        Some(b) => b.is_ascii_whitespace(),
        None => false,
    }
}
