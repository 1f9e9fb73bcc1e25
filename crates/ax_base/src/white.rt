//! Runs of white space turned into single spaces.
ghost use Rattle.std.specs.Prelude.{◌≡◌, ◌++◌, IfOk, OnOk, string_bytes};
ghost use Rattle.ax_base.specs.Characters.{flat, gap};

use crate::{NoMemory, Text};
use std::alloc::{AllocError, Global};

/// The text with each run of white space turned into one space, and none at its ends.
/// White space is space, tab, line feed, form feed and carriage return, as HTML has ASCII white space.
pub fn flat(alloc: Global, text: &str) -> Result<Text, NoMemory>
    ensures { IfOk result (λ t. t ≡ flat text.now) }
{
    let mut out = String::new(alloc);
    let mut apart = false;
    for c in text.chars() {
        if c.is_ascii_whitespace() {
            apart = true;
        } else {
            push_gap(&mut out, apart)?;
            out.push(c)?;
            apart = false;
        }
    }
    Ok(Text::from_string(out))
}

/// Adds the space between two words.
fn push_gap(out: &mut String, apart: bool) -> Result<(), AllocError>
    ensures { OnOk result (string_bytes out.new ≡ string_bytes out.old ++ gap (string_bytes out.old) apart) }
{
    if apart && !out.is_empty() {
        out.push(' ')?;
    }
    Ok(())
}
