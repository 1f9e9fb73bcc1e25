//! The text of a story's last tree.
ghost use Rattle.std.specs.Prelude.{◌≡◌, ◌++◌, ◌∷◌, [], IfOk, OnOk, string_bytes, codes};
ghost use Rattle.std.specs.List.{flat_map};
ghost use Rattle.std.specs.Fmt.{decimal};
ghost use Rattle.ax_base.specs.Quoting.{quoted};
ghost use Rattle.story_check.specs.Moments.{IsAccepted};
ghost use Rattle.ax_ask.specs.Transcripts.{end_line};
ghost use Rattle.ax_session.specs.Texts.{number_of, record_line, lines_within, document_text, dump_text};

use ax_base::{NoMemory, ObjId, Text, push_quoted, role_word};
use ax_dom::Dom;
use ax_fresh::tree_of;
use ax_record::{FreshTree, Record, TreeView};
use std::alloc::Global;
use std::fmt::Write;
use story_check::{Story, last_dom};

/// How far below the root the tree is written. No object is deeper.
const LEVELS: u32 = 128;

/// What `dump` writes of an accepted story: a line `ID PARENT ROLE "NAME"` for each object of the tree of its last moment in
/// preorder, with 0 for the parent of the root, and then `end` and the number of its flushes.
pub fn dump(alloc: Global, story: &Story) -> Result<Text, NoMemory>
    requires { IsAccepted story.now }
    ensures { IfOk result (λ text. text ≡ dump_text story.now) }
{
    let document = last_dom(alloc, story)?;
    document_text(alloc, &document, story.flushes())
}

/// What `dump` writes of the document of a story's last moment, whose number is that of its flushes.
pub fn document_text(alloc: Global, document: &Dom, flushes: u32) -> Result<Text, NoMemory>
    ensures { IfOk result (λ text. text ≡ document_text document.now flushes) }
{
    let tree = tree_of(alloc, document)?;
    let mut out = String::new(alloc);
    push_object(&tree, tree.root(), LEVELS, &mut out)?;
    push_end(&mut out, flushes)?;
    Ok(Text::from_string(out))
}

/// The line of an object, and those of the objects at most so many levels below it.
#[cycle(walk)]
fn push_object(tree: &FreshTree, id: ObjId, levels: u32, out: &mut String) -> Result<(), NoMemory>
    ensures { OnOk result (string_bytes out.new ≡ string_bytes out.old ++ lines_within tree.now levels id) }
{
    let Some(object) = tree.find(id) else {
        return Ok(());
    };
    push_line(out, object)?;
    if levels == 0 {
        return Ok(());
    }
    push_kids(tree, object.kids.as_slice(), levels - 1, out)
}

/// The lines of some objects, and of those at most so many levels below them.
#[cycle(walk)]
fn push_kids(
    tree: &FreshTree,
    kids: &[ObjId],
    levels: u32,
    out: &mut String,
) -> Result<(), NoMemory>
    ensures { OnOk result (string_bytes out.new ≡ string_bytes out.old ++ flat_map (lines_within tree.now levels) kids.now) }
{
    for kid in kids {
        push_object(tree, *kid, levels, out)?;
    }
    Ok(())
}

/// The line of an object.
fn push_line(out: &mut String, object: &Record) -> Result<(), NoMemory>
    ensures { OnOk result (string_bytes out.new ≡ string_bytes out.old ++ record_line object.now) }
{
    let id = object.id.number();
    let above = number_of(object.parent);
    let word = role_word(object.role);
    push_words(out, id, above, word, object.name.as_str())
}

/// The number of an object, or 0 for none.
fn number_of(id: Option<ObjId>) -> u32
    ensures { result ≡ number_of id }
{
    match id {
        Some(id) => id.number(),
        None => 0,
    }
}

fn push_words(out: &mut String, id: u32, above: u32, word: &str, name: &str) -> Result<(), NoMemory>
    ensures { OnOk result (string_bytes out.new ≡ string_bytes out.old ++
        (decimal id ++ codes " " ++ decimal above ++ codes " " ++ word.now ++ codes " " ++ quoted name.now ++ 10 ∷ [])) }
{
    write!(out, "{id} {above} {word} ")?;
    push_quoted(out, name)?;
    out.push('\n')?;
    Ok(())
}

/// The last line.
fn push_end(out: &mut String, flushes: u32) -> Result<(), NoMemory>
    ensures { OnOk result (string_bytes out.new ≡ string_bytes out.old ++ end_line flushes) }
{
    write!(out, "end {flushes}\n")?;
    Ok(())
}
