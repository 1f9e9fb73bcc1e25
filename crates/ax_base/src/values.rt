//! What attributes say.
ghost use Rattle.std.specs.Prelude.{◌≡◌};
ghost use Rattle.std.specs.Char.{is_ascii_digit};
ghost use Rattle.std.specs.List.{list_all};
ghost use Rattle.ax_base.specs.Characters.{is_blank};
ghost use Rattle.ax_base.specs.Values.{trimmed, is_same_word, text_in, is_there, is_filled, has_word, are_digits, without_minus, is_tab_index};

use crate::Attrs;

impl Attrs {
    /// The value of an attribute, and the empty text where it is not there.
    pub fn text(&self, name: &str) -> &str
        ensures { result.now ≡ text_in name.now self.now }
    {
        match self.get(name) {
            Some(value) => value.as_str(),
            None => "",
        }
    }

    /// Whether an attribute is there.
    pub fn has(&self, name: &str) -> bool
        ensures { result ≡ is_there name.now self.now }
    {
        self.get(name).is_some()
    }

    /// Whether an attribute is there with a value that is not blank.
    pub fn is_filled(&self, name: &str) -> bool
        ensures { result ≡ is_filled name.now self.now }
    {
        !is_blank(self.text(name))
    }

    /// Whether this is the word of an attribute: its value, trimmed, where `A` to `Z` count as `a` to `z`.
    pub fn has_word(&self, name: &str, word: &str) -> bool
        ensures { result ≡ has_word name.now word.now self.now }
    {
        is_same_word(trimmed(self.text(name)), word)
    }
}

/// Whether a text has nothing but white space.
pub fn is_blank(text: &str) -> bool
    ensures { result ≡ is_blank text.now }
{
    text.as_bytes().iter().all(|b| b.is_ascii_whitespace())
}

/// A text without the white space at its ends.
pub fn trimmed(text: &str) -> &str
    ensures { result.now ≡ trimmed text.now }
{
    text.trim_ascii()
}

/// Whether two texts are one word, where `A` to `Z` count as `a` to `z`.
pub fn is_same_word(a: &str, b: &str) -> bool
    ensures { result ≡ is_same_word a.now b.now }
{
    is_same_bytes(a.as_bytes(), b.as_bytes())
}

/// The same of bytes.
pub fn is_same_bytes(a: &[u8], b: &[u8]) -> bool
    ensures { result ≡ is_same_word a.now b.now }
{
    a.eq_ignore_ascii_case(b)
}

/// Whether a text is 1 to `most` digits.
pub fn are_digits(text: &[u8], most: usize) -> bool
    ensures { result ≡ are_digits most text.now }
{
    !text.is_empty() && text.len() <= most && has_digits_alone(text)
}

fn has_digits_alone(text: &[u8]) -> bool
    ensures { result ≡ list_all is_ascii_digit text.now }
{
    text.iter().all(|b| b.is_ascii_digit())
}

/// Whether a text is a number as `tabindex` has it: trimmed, an optional minus and 1 to 9 digits.
pub(crate) fn is_tab_index(text: &str) -> bool
    ensures { result ≡ is_tab_index text.now }
{
    are_digits(without_minus(trimmed(text).as_bytes()), 9)
}

fn without_minus(text: &[u8]) -> &[u8]
    ensures { result.now ≡ without_minus text.now }
{
    match text.split_first() {
        Some((first, rest)) => { if *first == b'-' { rest } else { text } }
        None => text,
    }
}
