//! Texts between quotes.
ghost use Rattle.std.specs.Prelude.{◌≡◌, ◌<◌, ◌/◌, ◌%◌, ◌++◌, ◌∷◌, [], true, codes, IfOk, OnOk, OnErr, string_bytes};
ghost use Rattle.std.specs.List.{flat_map, list_all};
ghost use Rattle.std.specs.Str.{chars};
ghost use Rattle.ax_base.specs.Quoting.{hex_digit, quoted, quoted_char, stands_for_itself};

use crate::NoMemory;
use std::alloc::{AllocError, Global};

/// Adds a text between quotes, as JSON writes strings: `\"`, `\\`, `\b`, `\f`, `\n`, `\r`, `\t`, other characters below
/// U+0020 as `\u00` and two lower-case hexadecimal digits, and all others as they are. At an error nothing changes.
pub fn push_quoted(out: &mut String, text: &str) -> Result<(), NoMemory>
    ensures ok { OnOk result (string_bytes out.new ≡ string_bytes out.old ++ quoted text.now) }
    ensures err { OnErr result (string_bytes out.new ≡ string_bytes out.old) }
{
    if is_plain(text) {
        push_plain(out, text)?;
        return Ok(());
    }
    let escaped = escaped(*out.allocator(), text)?;
    out.push_str(escaped.as_str())?;
    Ok(())
}

/// Adds a text in which nothing is escaped: it asks for all the room first, so that nothing changes at an error.
fn push_plain(out: &mut String, text: &str) -> Result<(), AllocError>
    requires plain { list_all stands_for_itself text.now ≡ true }
    ensures ok { OnOk result (string_bytes out.new ≡ string_bytes out.old ++ quoted text.now) }
    ensures err { OnErr result (string_bytes out.new ≡ string_bytes out.old) }
{
    out.reserve(text.len() + 2)?;
    out.push('"')?;
    out.push_str(text)?;
    out.push('"')?;
    Ok(())
}

/// A text between quotes.
fn escaped(alloc: Global, text: &str) -> Result<String, AllocError>
    ensures { IfOk result (λ s. string_bytes s ≡ quoted text.now) }
{
    let mut out = String::new(alloc);
    out.push('"')?;
    push_each(&mut out, text)?;
    out.push('"')?;
    Ok(out)
}

/// Whether nothing in a text is escaped.
fn is_plain(text: &str) -> bool
    ensures { result ≡ list_all stands_for_itself text.now }
{
    text.as_bytes()
        .iter()
        .all(|b| *b >= b' ' && *b != b'"' && *b != b'\\')
}

/// Adds what stands between the quotes, character by character.
fn push_each(out: &mut String, text: &str) -> Result<(), AllocError>
    ensures { OnOk result (string_bytes out.new ≡ string_bytes out.old ++ flat_map quoted_char (chars text.now)) }
{
    for c in text.chars() {
        push_char(out, c)?;
    }
    Ok(())
}

#[tactic(auto, unfolding(crate::specs::Quoting::quoted_char))]
fn push_char(out: &mut String, c: char) -> Result<(), AllocError>
    ensures { OnOk result (string_bytes out.new ≡ string_bytes out.old ++ quoted_char c) }
{
    if c == '"' {
        out.push_str("\\\"")
    } else if c == '\\' {
        out.push_str("\\\\")
    } else if c == '\u{8}' {
        out.push_str("\\b")
    } else if c == '\u{c}' {
        out.push_str("\\f")
    } else if c == '\n' {
        out.push_str("\\n")
    } else if c == '\r' {
        out.push_str("\\r")
    } else if c == '\t' {
        out.push_str("\\t")
    } else if c < ' ' {
        push_control(out, c)
    } else {
        out.push(c)
    }
}

fn push_control(out: &mut String, c: char) -> Result<(), AllocError>
    requires { c < 32 }
    ensures { OnOk result (string_bytes out.new ≡ string_bytes out.old ++ codes "\\u00" ++ hex_digit (c / 16) ∷ hex_digit (c % 16) ∷ []) }
{
    let code = u32::from(c);
    out.push_str("\\u00")?;
    out.push(hex_digit(code / 16))?;
    out.push(hex_digit(code % 16))
}

fn hex_digit(n: u32) -> char
    requires { n < 16 }
    ensures { result ≡ hex_digit n }
{
    if n < 10 {
        char::from(b'0' + n as u8)
    } else {
        char::from(b'a' + (n as u8 - 10))
    }
}
