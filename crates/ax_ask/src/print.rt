//! The texts of replies and transcripts.
ghost use Rattle.std.specs.Prelude.{◌≡◌, ◌++◌, IfOk, OnOk, string_bytes, codes};
ghost use Rattle.std.specs.List.{flat_map};
ghost use Rattle.std.specs.Fmt.{decimal};
ghost use Rattle.ax_base.specs.Quoting.{quoted};
ghost use Rattle.ax_ask.specs.Numbers.{all_spaced, marker_text};
ghost use Rattle.ax_ask.specs.StateWords.{state_words};
ghost use Rattle.ax_ask.specs.Replies.{reply_text};
ghost use Rattle.ax_ask.specs.Transcripts.{notice_line, notices_text, body_text, head_text, entry_text, end_line, transcript_text};

use crate::numbers::{push_ids, push_marker, push_number, push_rect};
use crate::states::push_states;
use crate::words::placing_word;
use crate::{Entry, EntryBody, Marker, Reply, Transcript};
use ax_base::{Ids, Moment, NoMemory, Notice, ObjId, States, Text, push_quoted, role_word};
use std::alloc::Global;
use std::fmt::Write;

/// The text of a reply, without an end of line.
pub fn print_reply(alloc: Global, r: &Reply) -> Result<Text, NoMemory>
    ensures { IfOk result (λ text. text ≡ reply_text r.now) }
{
    let mut out = String::new(alloc);
    push_reply(&mut out, r)?;
    Ok(Text::from_string(out))
}

/// The text of a transcript: each entry with its lines, and the last line with the number of flushes.
pub fn print_transcript(alloc: Global, t: &Transcript) -> Result<Text, NoMemory>
    ensures { IfOk result (λ text. text ≡ transcript_text t.now) }
{
    let mut out = String::new(alloc);
    push_entries(&mut out, t.entries.as_slice())?;
    push_end(&mut out, t.flushes)?;
    Ok(Text::from_string(out))
}

/// Adds the text of a reply, without an end of line.
fn push_reply(out: &mut String, reply: &Reply) -> Result<(), NoMemory>
    ensures { OnOk result (string_bytes out.new ≡ string_bytes out.old ++ reply_text reply.now) }
{
    match reply {
        Reply::Stale => push_word(out, "stale", ""),
        Reply::Out => push_word(out, "out", ""),
        Reply::Long => push_word(out, "long", ""),
        Reply::Nothing => push_word(out, "none", ""),
        Reply::Root(id) => push_id(out, "root ", *id),
        Reply::Focus(id) => push_id(out, "focus ", *id),
        Reply::Role(role) => push_word(out, "role ", role_word(*role)),
        Reply::Name(text) => push_text(out, "name ", text),
        Reply::Description(text) => push_text(out, "description ", text),
        Reply::Value(text) => push_text(out, "value ", text),
        Reply::States(states) => push_all_states(out, states),
        Reply::Level(level) => push_number(out, "level ", u32::from(*level)),
        Reply::Live(live) => push_word(out, "live ", live.as_str()),
        Reply::Frame(rect) => push_rect(out, "frame ", *rect),
        Reply::Parent(id) => push_id(out, "parent ", *id),
        Reply::Children(count, ids) => push_children(out, *count, ids),
        Reply::Order(placing) => push_word(out, "", placing_word(*placing)),
        Reply::Mark(marker) => push_marker(out, "marker ", *marker),
        Reply::Span(from, to) => push_span(out, *from, *to),
        Reply::Words(text) => push_text(out, "text ", text),
        Reply::Bounds(rect) => push_rect(out, "bounds ", *rect),
        Reply::Found(ids) => push_found(out, ids),
        Reply::Hit(id) => push_id(out, "hit ", *id),
    }
}

fn push_word(out: &mut String, label: &str, word: &str) -> Result<(), NoMemory>
    ensures { OnOk result (string_bytes out.new ≡ string_bytes out.old ++ (label.now ++ word.now)) }
{
    write!(out, "{label}{word}")?;
    Ok(())
}

fn push_id(out: &mut String, label: &str, id: ObjId) -> Result<(), NoMemory>
    ensures { OnOk result (string_bytes out.new ≡ string_bytes out.old ++ (label.now ++ decimal id)) }
{
    push_number(out, label, id.number())
}

fn push_text(out: &mut String, label: &str, text: &Text) -> Result<(), NoMemory>
    ensures { OnOk result (string_bytes out.new ≡ string_bytes out.old ++ (label.now ++ quoted text.now)) }
{
    out.push_str(label)?;
    push_quoted(out, text.as_str())
}

fn push_all_states(out: &mut String, states: &States) -> Result<(), NoMemory>
    ensures { OnOk result (string_bytes out.new ≡ string_bytes out.old ++ (codes "states" ++ state_words states.now)) }
{
    out.push_str("states")?;
    push_states(out, states)
}

fn push_children(out: &mut String, count: u32, ids: &Ids) -> Result<(), NoMemory>
    ensures { OnOk result (string_bytes out.new ≡ string_bytes out.old ++ (codes "children " ++ decimal count ++ all_spaced ids.now)) }
{
    write!(out, "children {count}")?;
    push_ids(out, ids.as_slice())
}

fn push_span(out: &mut String, from: Marker, to: Marker) -> Result<(), NoMemory>
    ensures { OnOk result (string_bytes out.new ≡ string_bytes out.old ++ (codes "range " ++ marker_text from ++ codes " " ++ marker_text to)) }
{
    push_marker(out, "range ", from)?;
    push_marker(out, " ", to)
}

fn push_found(out: &mut String, ids: &Ids) -> Result<(), NoMemory>
    ensures { OnOk result (string_bytes out.new ≡ string_bytes out.old ++ (codes "found" ++ all_spaced ids.now)) }
{
    out.push_str("found")?;
    push_ids(out, ids.as_slice())
}

/// Adds the text of an entry: its line and, for notices, a line for each, with their ends.
fn push_entry(out: &mut String, entry: &Entry) -> Result<(), NoMemory>
    ensures { OnOk result (string_bytes out.new ≡ string_bytes out.old ++ entry_text entry.now) }
{
    push_head(out, entry.number, entry.moment)?;
    push_body(out, &entry.body)
}

fn push_head(out: &mut String, number: u32, moment: Moment) -> Result<(), NoMemory>
    ensures { OnOk result (string_bytes out.new ≡ string_bytes out.old ++ head_text number moment) }
{
    let moment = moment.number();
    write!(out, "#{number} @{moment} ")?;
    Ok(())
}

fn push_body(out: &mut String, body: &EntryBody) -> Result<(), NoMemory>
    ensures { OnOk result (string_bytes out.new ≡ string_bytes out.old ++ body_text body.now) }
{
    match body {
        EntryBody::Reply(reply) => push_reply_line(out, reply),
        EntryBody::Await => push_word(out, "await\n", ""),
        EntryBody::Hear => push_word(out, "hear\n", ""),
        EntryBody::Notices(notices) => push_notices(out, notices.as_slice()),
    }
}

fn push_reply_line(out: &mut String, reply: &Reply) -> Result<(), NoMemory>
    ensures { OnOk result (string_bytes out.new ≡ string_bytes out.old ++ (reply_text reply.now ++ codes "\n")) }
{
    push_reply(out, reply)?;
    out.push_str("\n")?;
    Ok(())
}

fn push_notices(out: &mut String, notices: &[Notice]) -> Result<(), NoMemory>
    ensures { OnOk result (string_bytes out.new ≡ string_bytes out.old ++ notices_text notices.now) }
{
    let count = notices.len();
    write!(out, "notices {count}\n")?;
    push_notice_lines(out, notices)
}

fn push_notice_lines(out: &mut String, notices: &[Notice]) -> Result<(), NoMemory>
    ensures { OnOk result (string_bytes out.new ≡ string_bytes out.old ++ flat_map notice_line notices.now) }
{
    for notice in notices {
        push_notice(out, notice)?;
    }
    Ok(())
}

fn push_notice(out: &mut String, notice: &Notice) -> Result<(), NoMemory>
    ensures { OnOk result (string_bytes out.new ≡ string_bytes out.old ++ notice_line notice.now) }
{
    let moment = notice.moment.number();
    let word = notice.kind.as_str();
    let id = notice.id.map_or(0, ObjId::number);
    write!(out, "! {moment} {word} ")?;
    write!(out, "{id}\n")?;
    Ok(())
}

fn push_entries(out: &mut String, entries: &[Entry]) -> Result<(), NoMemory>
    ensures { OnOk result (string_bytes out.new ≡ string_bytes out.old ++ flat_map entry_text entries.now) }
{
    for entry in entries {
        push_entry(out, entry)?;
    }
    Ok(())
}

fn push_end(out: &mut String, flushes: u32) -> Result<(), NoMemory>
    ensures { OnOk result (string_bytes out.new ≡ string_bytes out.old ++ end_line flushes) }
{
    write!(out, "end {flushes}\n")?;
    Ok(())
}
