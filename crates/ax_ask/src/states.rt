//! The states of an object in words.
ghost use Rattle.std.specs.Prelude.{◌≡◌, ◌++◌, OnOk, string_bytes, codes};
ghost use Rattle.ax_ask.specs.StateWords.{where_holds, where_told, where_checked, state_words};

use crate::words::truth_word;
use ax_base::{Checked, NoMemory, States};
use std::fmt::Write;

/// Adds the words of an object's states, each after a space.
pub fn push_states(out: &mut String, s: &States) -> Result<(), NoMemory>
    ensures { OnOk result (string_bytes out.new ≡ string_bytes out.old ++ state_words s.now) }
{
    let States {
        focusable,
        disabled,
        checked,
        expanded,
        selected,
        pressed,
        required,
        readonly,
        invalid,
        busy,
    } = *s;
    push_where_holds(out, focusable, "focusable")?;
    push_where_holds(out, disabled, "disabled")?;
    push_where_checked(out, "checked", checked)?;
    push_where_told(out, "expanded", expanded)?;
    push_where_told(out, "selected", selected)?;
    push_where_checked(out, "pressed", pressed)?;
    push_where_holds(out, required, "required")?;
    push_where_holds(out, readonly, "readonly")?;
    push_where_holds(out, invalid, "invalid")?;
    push_where_holds(out, busy, "busy")?;
    Ok(())
}

fn push_where_holds(out: &mut String, holds: bool, word: &str) -> Result<(), NoMemory>
    ensures { OnOk result (string_bytes out.new ≡ string_bytes out.old ++ where_holds holds word.now) }
{
    if holds {
        write!(out, " {word}")?;
    }
    Ok(())
}

fn push_where_told(out: &mut String, name: &str, told: Option<bool>) -> Result<(), NoMemory>
    ensures { OnOk result (string_bytes out.new ≡ string_bytes out.old ++ where_told name.now told) }
{
    match told {
        Some(holds) => push_setting(out, name, truth_word(holds)),
        None => Ok(()),
    }
}

fn push_where_checked(out: &mut String, name: &str, told: Option<Checked>) -> Result<(), NoMemory>
    ensures { OnOk result (string_bytes out.new ≡ string_bytes out.old ++ where_checked name.now told) }
{
    match told {
        Some(checked) => push_setting(out, name, checked.as_str()),
        None => Ok(()),
    }
}

fn push_setting(out: &mut String, name: &str, word: &str) -> Result<(), NoMemory>
    ensures { OnOk result (string_bytes out.new ≡ string_bytes out.old ++ (codes " " ++ name.now ++ codes "=" ++ word.now)) }
{
    write!(out, " {name}={word}")?;
    Ok(())
}
