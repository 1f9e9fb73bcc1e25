//! The lines of the generated story.
ghost use Rattle.std.specs.Prelude.{◌≡◌, ◌≤◌, ◌++◌, OnOk, string_bytes};
ghost use Rattle.story_gen.specs.Generated.{item_line, button_line, label_line, insert_lines, set_label, new_label, name_line, flush_line, ask_line, change_lines, moments, last_lines};

use ax_base::NoMemory;
use std::alloc::Global;
use std::fmt::Write;

/// Adds the lines that insert an item, its button and the text in it.
pub fn push_item(out: &mut String, item: u16) -> Result<(), NoMemory>
    requires { item ≤ 1000 }
    ensures { OnOk result (string_bytes out.new ≡ string_bytes out.old ++ insert_lines item) }
{
    push_item_line(out, item)?;
    push_button_line(out, item)?;
    push_label_line(out, item)
}

fn push_item_line(out: &mut String, item: u16) -> Result<(), NoMemory>
    requires { item ≤ 1000 }
    ensures { OnOk result (string_bytes out.new ≡ string_bytes out.old ++ item_line item) }
{
    let id = 3 * item;
    write!(out, "{{\"insert\":{id},\"into\":2,\"tag\":\"li\"}}\n")?;
    Ok(())
}

fn push_button_line(out: &mut String, item: u16) -> Result<(), NoMemory>
    requires { item ≤ 1000 }
    ensures { OnOk result (string_bytes out.new ≡ string_bytes out.old ++ button_line item) }
{
    let into = 3 * item;
    let id = into + 1;
    write!(
        out,
        "{{\"insert\":{id},\"into\":{into},\"tag\":\"button\"}}\n"
    )?;
    Ok(())
}

fn push_label_line(out: &mut String, item: u16) -> Result<(), NoMemory>
    requires { item ≤ 1000 }
    ensures { OnOk result (string_bytes out.new ≡ string_bytes out.old ++ label_line item) }
{
    let into = 3 * item + 1;
    let id = 3 * item + 2;
    write!(
        out,
        "{{\"insert\":{id},\"into\":{into},\"text\":\"Item {item}\"}}\n"
    )?;
    Ok(())
}

/// Adds the lines that change an item: its new name, after every fourth a flush, and the client's request.
pub fn push_change(out: &mut String, count: u16, item: u16) -> Result<(), NoMemory>
    requires { item ≤ 1000 }
    ensures { OnOk result (string_bytes out.new ≡ string_bytes out.old ++ change_lines count item) }
{
    push_name_line(out, count, item)?;
    push_flush_line(out, item)?;
    push_ask_line(out, item)
}

fn push_name_line(out: &mut String, count: u16, item: u16) -> Result<(), NoMemory>
    requires { item ≤ 1000 }
    ensures { OnOk result (string_bytes out.new ≡ string_bytes out.old ++ name_line count item) }
{
    push_set_label(out, item)?;
    push_new_label(out, count, item)
}

fn push_set_label(out: &mut String, item: u16) -> Result<(), NoMemory>
    requires { item ≤ 1000 }
    ensures { OnOk result (string_bytes out.new ≡ string_bytes out.old ++ set_label item) }
{
    let id = 3 * item + 1;
    write!(out, "{{\"set\":{id},\"name\":\"aria-label\",\"value\":")?;
    Ok(())
}

fn push_new_label(out: &mut String, count: u16, item: u16) -> Result<(), NoMemory>
    ensures { OnOk result (string_bytes out.new ≡ string_bytes out.old ++ new_label count item) }
{
    write!(out, "\"Item {item} of {count}\"}}\n")?;
    Ok(())
}

fn push_flush_line(out: &mut String, item: u16) -> Result<(), NoMemory>
    ensures { OnOk result (string_bytes out.new ≡ string_bytes out.old ++ flush_line item) }
{
    out.push_str(flush_line(item))?;
    Ok(())
}

/// A flush after every fourth item.
fn flush_line(item: u16) -> &'static str
    ensures { result.now ≡ flush_line item }
{
    if item % 4 == 0 {
        "{\"flush\":true}\n"
    } else {
        ""
    }
}

fn push_ask_line(out: &mut String, item: u16) -> Result<(), NoMemory>
    requires { item ≤ 1000 }
    ensures { OnOk result (string_bytes out.new ≡ string_bytes out.old ++ ask_line item) }
{
    let id = 3 * item + 1;
    write!(out, "{{\"ask\":{{\"q\":\"name\",\"id\":{id}}}}}\n")?;
    Ok(())
}

/// Adds the last lines of the client: it awaits the last moment, and lists the notices of all.
pub fn push_last(out: &mut String, count: u16) -> Result<(), NoMemory>
    requires { count ≤ 1000 }
    ensures { OnOk result (string_bytes out.new ≡ string_bytes out.old ++ last_lines count) }
{
    let last = moments(count);
    write!(out, "{{\"await\":{last}}}\n{{\"notices\":true}}\n")?;
    Ok(())
}

/// How many moments the story has.
fn moments(count: u16) -> u16
    requires { count ≤ 1000 }
    ensures { result ≡ moments count }
{
    (count + 3) / 4
}
