//! The first characters of what is put together.
ghost use Rattle.std.specs.Prelude.{◌≡◌, ◌||◌, true, [], IfOk, OnOk, encode_utf8};
ghost use Rattle.ax_base.specs.Characters.{flat};
ghost use Rattle.ax_names.specs.Pieces.{is_empty, begins_white, is_ink, evenly_spaced, opening_of, followed, and_more, space_behind, spaced};

use ax_base::{NoMemory, Text};
use std::alloc::Global;
use std::marker::Model;

/// The most characters that are kept.
const MOST: usize = 512;

/// The first 512 characters of all that is put into it, and whether more came.
///
/// Where a call has no memory left, it is of no more use.
#[derive(Drop)]
pub struct Front {
    string: String,
    count: usize,
    more: bool,
}

impl Model for Front {
    ghost use Rattle.std.specs.Prelude.{◌≡◌, ◌≤◌};
    ghost use Rattle.std.specs.String.{string_bytes};
    ghost use Rattle.std.specs.Fmt.{char_count};
    ghost use Rattle.ax_names.specs.Pieces.{Opening};

    ghost Value = { Opening };

    ghost view = { λ f. record { words = string_bytes f.string; more = f.more } };

    ghost invariant = { λ f. (char_count (string_bytes f.string) ≡ f.count) × (f.count ≤ 512) };
}

impl Front {
    /// No characters. It takes no memory.
    pub fn new(alloc: Global) -> Front
        ensures { result ≡ opening_of [] }
    {
        Front {
            string: String::new(alloc),
            count: 0,
            more: false,
        }
    }

    /// An equal copy.
    pub fn copy(&self, alloc: Global) -> Result<Front, NoMemory>
        ensures { IfOk result (λ f. f ≡ self.now) }
    {
        Ok(Front {
            string: String::from_str(alloc, self.string.as_str())?,
            count: self.count,
            more: self.more,
        })
    }

    /// Whether it has no character.
    pub fn is_empty(&self) -> bool
        ensures { result ≡ is_empty self.now.words }
    {
        self.string.as_str().is_empty()
    }

    /// Whether more characters came than it keeps: nothing that is put into it changes it any more.
    pub fn has_more(&self) -> bool
        ensures { result ≡ self.now.more }
    {
        self.more
    }

    /// The characters.
    pub fn as_str(&self) -> &str
        ensures { result.now ≡ self.now.words }
    {
        self.string.as_str()
    }

    /// The characters as a text. It takes no memory.
    pub fn into_text(self) -> Text
        ensures { result ≡ self.words }
    {
        Text::from_string(self.string)
    }

    /// Says that more characters came, if they did.
    pub fn note_more(&mut self, more: bool)
        ensures { self.new ≡ and_more self.old more }
    {
        self.more = self.more || more;
    }

    /// Puts a character in.
    pub fn put(&mut self, c: char) -> Result<(), NoMemory>
        ensures { OnOk result (self.new ≡ followed self.old (encode_utf8 c)) }
    {
        if self.more {
            return Ok(());
        }
        if self.count == MOST {
            self.more = true;
            return Ok(());
        }
        self.string.push(c)?;
        self.count += 1;
        Ok(())
    }

    /// Puts a space in, where there are words and white space came behind them.
    pub fn put_gap(&mut self, white: bool) -> Result<(), NoMemory>
        ensures { OnOk result (self.new ≡ followed self.old (space_behind self.old.words white)) }
    {
        // Proof only: borrowing a field brings the type's invariant into scope.
        let _ = &self.count;
        if self.is_empty() {
            return Ok(());
        }
        if !white {
            return Ok(());
        }
        self.put(' ')
    }

    /// Puts in the characters that another keeps, behind a space where white space came between.
    pub fn put_words(&mut self, white: bool, words: &Front) -> Result<(), NoMemory>
        ensures { OnOk result (self.new ≡ followed self.old (spaced self.old.words white words.now.words)) }
    {
        let bare = words.is_empty();
        self.put_gap(white && !bare)?;
        self.put_all(words)
    }

    /// Puts in the characters that another keeps, at once where they fit.
    fn put_all(&mut self, words: &Front) -> Result<(), NoMemory>
        ensures { OnOk result (self.new ≡ followed self.old words.now.words) }
    {
        if self.more {
            return Ok(());
        }
        if words.count <= MOST - self.count {
            self.string.push_str(words.as_str())?;
            self.count += words.count;
            return Ok(());
        }
        self.put_str(words.as_str())
    }

    /// Puts the characters of a text in, as they are. It reads no further once nothing changes any more.
    fn put_str(&mut self, text: &str) -> Result<(), NoMemory>
        ensures { OnOk result (self.new ≡ followed self.old text.now) }
    {
        // Proof only: borrowing a field brings the type's invariant into scope.
        let _ = &self.count;
        for c in text.chars() {
            if self.has_more() {
                return Ok(());
            }
            self.put(c)?;
        }
        Ok(())
    }

    /// Puts a text in, made flat, where white space came before it or not.
    pub fn put_flat(&mut self, white: bool, text: &str) -> Result<(), NoMemory>
        ensures { OnOk result (self.new ≡ followed self.old (spaced self.old.words (white || begins_white text.now) (flat text.now))) }
    {
        if is_evenly_spaced(text) {
            self.put_even(white, text)
        } else {
            self.put_uneven(white, text)
        }
    }

    /// Puts a text in that is flat already, behind a space where white space came between.
    fn put_even(&mut self, white: bool, text: &str) -> Result<(), NoMemory>
        requires { evenly_spaced true text.now ≡ true }
        ensures { OnOk result (self.new ≡ followed self.old (spaced self.old.words white text.now)) }
    {
        self.put_gap(white)?;
        self.put_ascii(text)
    }

    /// Puts a text in that is flat already, at once where it fits.
    fn put_ascii(&mut self, text: &str) -> Result<(), NoMemory>
        requires { evenly_spaced true text.now ≡ true }
        ensures { OnOk result (self.new ≡ followed self.old text.now) }
    {
        if self.more {
            return Ok(());
        }
        if text.len() <= MOST - self.count {
            self.string.push_str(text)?;
            self.count += text.len();
            return Ok(());
        }
        self.put_str(text)
    }

    /// Puts a text in, made flat character by character. It reads no further once nothing changes any more.
    fn put_uneven(&mut self, white: bool, text: &str) -> Result<(), NoMemory>
        ensures { OnOk result (self.new ≡ followed self.old (spaced self.old.words (white || begins_white text.now) (flat text.now))) }
    {
        // Proof only: borrowing a field brings the type's invariant into scope.
        let _ = &self.count;
        let mut apart = white;
        for c in text.chars() {
            if self.has_more() {
                return Ok(());
            }
            if c.is_ascii_whitespace() {
                apart = true;
            } else {
                self.put_ink(apart, c)?;
                apart = false;
            }
        }
        Ok(())
    }

    /// Puts a character of a word in, behind a space where white space came between.
    fn put_ink(&mut self, white: bool, c: char) -> Result<(), NoMemory>
        ensures { OnOk result (self.new ≡ followed self.old (spaced self.old.words white (encode_utf8 c))) }
    {
        self.put_gap(white)?;
        self.put(c)
    }
}

/// Whether a text is ASCII and flat already: words with one space between each two, and no other white space.
fn is_evenly_spaced(text: &str) -> bool
    ensures { result ≡ evenly_spaced true text.now }
{
    let mut parted = true;
    for b in text.as_bytes() {
        if *b == b' ' {
            if parted {
                return false;
            }
            parted = true;
        } else if is_ink(*b) {
            parted = false;
        } else {
            return false;
        }
    }
    !parted
}

/// Whether a byte is an ASCII character that is neither white space nor a control.
fn is_ink(b: u8) -> bool
    ensures { result ≡ is_ink b }
{
    b > b' ' && b < 128
}
