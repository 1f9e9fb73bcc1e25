//! What a line says, and why it says nothing.
ghost use Rattle.std.specs.Prelude.{◌≡◌, IfOk, IfSome};
ghost use Rattle.serde_json.specs.View.{view};
ghost use Rattle.story_lines.specs.Bounds.{KeepsBounds};
ghost use Rattle.story_lines.specs.Lines.{is_blank_line, said_by, line_of, Reads};

use crate::forms::form_of;
use ax_ask::Request;
use ax_base::{Moment, NoMemory, Text};
use ax_dom::Edit;
use serde_json::Value;
use std::alloc::Global;
use thiserror::Error;

/// What a line of a story says.
#[derive(Drop)]
pub enum Line {
    /// A change of the document.
    Change(Edit),
    /// The document so far is the one of moment 0.
    Start,
    /// The page publishes its document, which gives the next moment.
    Flush,
    /// The page waits until the client has taken this moment.
    Until(Moment),
    /// The client asks.
    Ask(Request),
    /// The client asks without taking: the reply is of the tree that it took last.
    Again(Request),
    /// The client hears how many moments are published.
    Hear,
    /// The client waits until this moment is published.
    Await(Moment),
    /// The client lists the notices since those that it listed last.
    Notices,
    /// The order in which the two sides take turns, `P` for the page and `C` for the client. Any text is read.
    Turns(Text),
}

/// Why a line can't be read.
#[derive(Clone, Copy, Debug, PartialEq, Eq, Error)]
pub enum LineFail {
    /// The line isn't blank and has no JSON reading.
    #[error("the line is no JSON value")]
    BadJson,
    /// The line is a JSON value that has none of the forms of a line.
    #[error("the JSON value has none of the forms of a line")]
    BadLine,
    /// There was no memory left.
    #[error("out of memory")]
    NoMemory,
}

impl From<NoMemory> for LineFail {
    ghost use Rattle.std.specs.Prelude.{◌≡◌};
    ghost use Rattle.story_lines.specs.declared.reading.LineFail.TheVariants.{NoMemory as OutOfMemory};

    ghost from_gives = { λ _ e. e ≡ OutOfMemory };

    fn from(_: NoMemory) -> LineFail {
        LineFail::NoMemory
    }
}

/// What a JSON value says as a line.
fn said_by(alloc: Global, value: &Value) -> Result<Option<Line>, LineFail>
    ensures said { Reads result (said_by (view value.now)) }
    ensures bounds { IfOk result (λ line. IfSome line KeepsBounds) }
{
    match form_of(alloc, value)? {
        Some(line) => Ok(Some(line)),
        None => Err(LineFail::BadLine),
    }
}

/// Whether a line has nothing but spaces, tabs and carriage returns.
fn is_blank_line(line: &str) -> bool
    ensures { result ≡ is_blank_line line.now }
{
    line.as_bytes()
        .iter()
        .all(|b| *b == b' ' || *b == b'\t' || *b == b'\r')
}

/// What a line says, and `None` exactly for a blank line: one that is empty or has only spaces, tabs and carriage returns.
/// The line stands without its line feed.
pub fn read_line(alloc: Global, line: &str) -> Result<Option<Line>, LineFail>
    ensures said { Reads result (line_of line.now) }

    // Each rectangle of the line is within bounds.
    ensures bounds { IfOk result (λ said. IfSome said KeepsBounds) }
{
    if is_blank_line(line) {
        return Ok(None);
    }
    match Value::from_str(alloc, line) {
        Ok(value) => said_by(alloc, &value),
        Err(error) => {
            if error.is_memory() {
                Err(LineFail::NoMemory)
            } else {
                Err(LineFail::BadJson)
            }
        }
    }
}
