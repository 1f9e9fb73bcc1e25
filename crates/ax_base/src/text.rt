//! Texts.
ghost use Rattle.std.specs.Prelude.{◌≡◌, ℕ, ◌++◌, List, [], length, bytes_eq, ◌==◌, IfOk, OnOk, OnErr, nat_eq};
ghost use Rattle.std.specs.String.{string_bytes};
ghost use Rattle.std.specs.Str.{chars};
ghost use Rattle.std.specs.Cmp.{partial_equiv_from_equiv};
ghost use Rattle.std.specs.Cmp.Lexicographic.{pointwise, nat_list_eq_equiv};
ghost use Rattle.ax_base.specs.Characters.{is_blank, cut};

use crate::{MAX_NAME_CHARACTERS, NoMemory};
use std::alloc::{AllocError, Global};
use std::marker::Model;

/// A text. A clause sees it as the list of its bytes, which are UTF-8.
#[derive(Debug, Drop)]
pub struct Text {
    string: String,
}

impl Model for Text {
    ghost use Rattle.std.specs.Prelude.{ℕ, List};
    ghost use Rattle.std.specs.String.{string_bytes};

    ghost Value = { List ℕ };

    ghost view = { λ t. string_bytes t.string };
}

impl Text {
    /// The empty text. It takes no memory.
    pub fn new(alloc: Global) -> Text
        ensures { result ≡ [] }
    {
        Text {
            string: String::new(alloc),
        }
    }

    /// The text of a string. It takes no memory.
    pub fn from_string(string: String) -> Text
        ensures { result ≡ string_bytes string }
    {
        Text { string }
    }

    /// A copy of these characters.
    pub fn from_str(alloc: Global, s: &str) -> Result<Text, NoMemory>
        ensures { IfOk result (λ t. t ≡ s.now) }
    {
        Ok(Text {
            string: String::from_str(alloc, s)?,
        })
    }

    /// The characters of the text.
    pub fn as_str(&self) -> &str
        ensures { result.now ≡ self.now }
    {
        self.string.as_str()
    }

    /// The text as a string. It takes no memory.
    pub fn into_string(self) -> String
        ensures { string_bytes result ≡ self }
    {
        self.string
    }

    /// An equal text.
    pub fn copy(&self, alloc: Global) -> Result<Text, NoMemory>
        ensures { IfOk result (λ t. t ≡ self.now) }
    {
        Text::from_str(alloc, self.as_str())
    }

    /// Whether it is this text.
    pub fn is(&self, s: &str) -> bool
        ensures { result ≡ bytes_eq self.now s.now }
    {
        let own = self.string.as_str();
        own.len() == s.len() && own == s
    }

    /// Whether it has no character.
    pub fn is_empty(&self) -> bool
        ensures { result ≡ (length self.now == 0) }
    {
        self.string.as_str().is_empty()
    }

    /// How many characters it has.
    pub fn count(&self) -> usize
        ensures { result ≡ length (chars self.now) }
    {
        self.string.as_str().chars().count()
    }

    /// Adds characters at the end. At an error nothing changes.
    pub fn push_str(&mut self, other: &str) -> Result<(), NoMemory>
        ensures ok { OnOk result (self.new ≡ self.old ++ other.now) }
        ensures err { OnErr result (self.new ≡ self.old) }
    {
        self.string.push_str(other)?;
        Ok(())
    }

    /// Whether it has nothing but white space: space, tab, line feed, form feed and carriage return.
    pub fn is_blank(&self) -> bool
        ensures { result ≡ is_blank self.now }
    {
        self.string
            .as_bytes()
            .iter()
            .all(|b| b.is_ascii_whitespace())
    }
}

impl PartialEq for Text {
    ghost eq = { pointwise nat_eq };

    ghost laws = { partial_equiv_from_equiv nat_list_eq_equiv };

    fn eq(&self, other: &Text) -> bool {
        self.string == other.string
    }
}

impl Eq for Text {
    ghost laws = { nat_list_eq_equiv };
}

/// The first 512 characters of a text, or all of it where it has no more.
pub fn cap512(alloc: Global, text: &Text) -> Result<Text, NoMemory>
    ensures { IfOk result (λ t. t ≡ cut text.now) }
{
    let string = first_characters(alloc, text.as_str())?;
    Ok(Text::from_string(string))
}

fn first_characters(alloc: Global, text: &str) -> Result<String, AllocError>
    ensures { IfOk result (λ s. string_bytes s ≡ cut text.now) }
{
    let mut front = String::new(alloc);
    for c in text.chars().take(MAX_NAME_CHARACTERS) {
        front.push(c)?;
    }
    Ok(front)
}
