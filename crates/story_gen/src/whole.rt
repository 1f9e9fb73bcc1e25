//! The generated story as a whole.
ghost use Rattle.std.specs.Prelude.{◌≡◌, ◌≤◌, ◌++◌, IfOk, OnOk, string_bytes};
ghost use Rattle.story_gen.specs.Generated.{up_to, insert_lines, change_lines, generated};

use crate::lines::{push_change, push_item, push_last};
use ax_base::{NoMemory, Text};
use std::alloc::Global;

/// The generated story of so many items, from 1 to 1,000: a list of buttons, of which the page renames one after another,
/// with a flush after every fourth, while the client asks for each name, awaits the last moment and lists all notices.
#[tactic(auto, unfolding(crate::specs::Generated::generated))]
pub fn generate(alloc: Global, n: u16) -> Result<Text, NoMemory>
    requires some { 1 ≤ n }
    requires most { n ≤ 1000 }
    ensures { IfOk result (λ text. text ≡ generated n) }
{
    let mut out = String::new(alloc);
    out.push_str("{\"insert\":2,\"into\":1,\"tag\":\"ul\"}\n")?;
    push_items(&mut out, n)?;
    out.push_str("{\"start\":1}\n")?;
    push_changes(&mut out, n)?;
    push_last(&mut out, n)?;
    Ok(Text::from_string(out))
}

/// Adds the lines that insert the items.
fn push_items(out: &mut String, count: u16) -> Result<(), NoMemory>
    requires { count ≤ 1000 }
    ensures { OnOk result (string_bytes out.new ≡ string_bytes out.old ++ up_to insert_lines count) }
{
    for done in 0..count {
        push_item(out, done + 1)?;
    }
    Ok(())
}

/// Adds the lines that change each item and ask for it.
fn push_changes(out: &mut String, count: u16) -> Result<(), NoMemory>
    requires { count ≤ 1000 }
    ensures { OnOk result (string_bytes out.new ≡ string_bytes out.old ++ up_to (change_lines count) count) }
{
    for done in 0..count {
        push_change(out, count, done + 1)?;
    }
    Ok(())
}
