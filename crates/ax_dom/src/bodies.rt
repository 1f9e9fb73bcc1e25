//! What an edit makes of the one node that it changes.
ghost use Rattle.std.specs.Prelude.{◌≡◌, IfOk, OnOk, OnErr};
ghost use Rattle.ax_dom.specs.Bodies.{with_chars, with_attr, without_attr, with_runs, with_frame, body_after};

use crate::edit::Edit;
use ax_base::{Body, NoMemory, Rect, Runs, Text};
use std::alloc::Global;

/// An equal element or text.
pub fn copy_body(alloc: Global, body: &Body) -> Result<Body, NoMemory>
    ensures { IfOk result (λ b. b ≡ body.now) }
{
    match body {
        Body::Element { tag, attrs, frame } => Ok(Body::Element {
            tag: tag.copy(alloc)?,
            attrs: attrs.copy(alloc)?,
            frame: *frame,
        }),
        Body::Words { chars, runs } => Ok(Body::Words {
            chars: chars.copy(alloc)?,
            runs: runs.copy(alloc)?,
        }),
    }
}

/// Does an edit that changes a node alone. At an error nothing changes.
pub fn amend_body(alloc: Global, body: &mut Body, e: Edit) -> Result<(), NoMemory>
    ensures ok { OnOk result (body.new ≡ body_after e body.old) }
    ensures err { OnErr result (body.new ≡ body.old) }
{
    match e {
        Edit::Chars { chars, .. } => {
            set_chars(alloc, body, chars);
            Ok(())
        }
        Edit::Set { name, value, .. } => set_attr(body, name, value),
        Edit::Unset { name, .. } => {
            unset_attr(body, &name);
            Ok(())
        }
        Edit::SetRuns { runs, .. } => {
            set_runs(body, runs);
            Ok(())
        }
        Edit::Frame { rect, .. } => {
            set_frame(body, rect);
            Ok(())
        }
        _ => Ok(()),
    }
}

/// Gives a text other characters, and takes its runs away.
fn set_chars(alloc: Global, body: &mut Body, new: Text)
    ensures { body.new ≡ with_chars new body.old }
{
    if let Body::Words { chars, runs } = body {
        *chars = new;
        *runs = Runs::new(alloc);
    }
}

/// Gives an attribute of an element a value. At an error nothing changes.
fn set_attr(body: &mut Body, name: Text, value: Text) -> Result<(), NoMemory>
    ensures ok { OnOk result (body.new ≡ with_attr name value body.old) }
    ensures err { OnErr result (body.new ≡ body.old) }
{
    if let Body::Element { attrs, .. } = body {
        attrs.set(name, value)?;
    }
    Ok(())
}

/// Takes an attribute of an element away.
fn unset_attr(body: &mut Body, name: &Text)
    ensures { body.new ≡ without_attr name.now body.old }
{
    if let Body::Element { attrs, .. } = body {
        attrs.unset(name);
    }
}

/// Gives a text other runs.
fn set_runs(body: &mut Body, new: Runs)
    ensures { body.new ≡ with_runs new body.old }
{
    if let Body::Words { runs, .. } = body {
        *runs = new;
    }
}

/// Gives an element another frame.
fn set_frame(body: &mut Body, rect: Rect)
    ensures { body.new ≡ with_frame rect body.old }
{
    if let Body::Element { frame, .. } = body {
        *frame = rect;
    }
}
