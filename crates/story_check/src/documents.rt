//! The documents of a story's moments.
ghost use Rattle.std.specs.Prelude.{◌≡◌, None, IfOk, OnOk, OnErr};
ghost use Rattle.ax_dom.specs.Bounds.{EditKeepsBounds};
ghost use Rattle.ax_dom.specs.Changes.{edited, new_document};
ghost use Rattle.ax_dom.specs.Refusals.{edit_cause};
ghost use Rattle.story_check.specs.Stories.{flushes};
ghost use Rattle.story_check.specs.Moments.{after_edits, after_flushes, document_at, AreAccepted, AreLinesAccepted, IsAccepted};

use crate::{PageLine, Story};
use ax_base::NoMemory;
use ax_dom::{Dom, Edit};
use std::alloc::Global;

/// The document of moment 0: what the edits before the start make. The only error is want of memory.
#[tactic(auto, unfolding(crate::specs::Moments::document_at))]
pub fn base_dom(alloc: Global, story: &Story) -> Result<Dom, NoMemory>
    requires { IsAccepted story.now }
    ensures { IfOk result (λ d. d ≡ document_at story.now 0) }
{
    document_of(alloc, story.base())
}

/// The document of the last moment: what the page has at its last flush. The only error is want of memory.
#[tactic(auto, unfolding(crate::specs::Moments::document_at))]
pub fn last_dom(alloc: Global, story: &Story) -> Result<Dom, NoMemory>
    requires { IsAccepted story.now }
    ensures { IfOk result (λ d. d ≡ document_at story.now (flushes story.now.page)) }
{
    let document = document_of(alloc, story.base())?;
    flushed_dom(alloc, document, story.page(), story.flushes())
}

/// Does an edit that nothing refuses, so that only memory can be wanting. Its rectangles are within bounds. At an error the
/// document is unchanged.
pub fn change(alloc: Global, document: &mut Dom, edit: &Edit) -> Result<(), NoMemory>
    requires free { edit_cause document.old edit.now ≡ None }
    requires within { EditKeepsBounds edit.now }
    ensures ok { OnOk result (document.new ≡ edited document.old edit.now) }
    ensures err { OnErr result (document.new ≡ document.old) }
{
    let copy = edit.copy(alloc)?;
    document.apply_accepted(alloc, copy)
}

/// The document that these edits make of the root alone.
fn document_of(alloc: Global, edits: &[Edit]) -> Result<Dom, NoMemory>
    requires { AreAccepted new_document edits.now }
    ensures { IfOk result (λ d. d ≡ after_edits new_document edits.now) }
{
    let mut document = Dom::new(alloc)?;
    for edit in edits {
        change(alloc, &mut document, edit)?;
    }
    Ok(document)
}

/// The document at the last of so many flushes, which are all that the lines have.
fn flushed_dom(
    alloc: Global,
    mut document: Dom,
    page: &[PageLine],
    count: u32,
) -> Result<Dom, NoMemory>
    requires accepted { AreLinesAccepted document page.now }
    requires all { count ≡ flushes page.now }
    ensures { IfOk result (λ d. d ≡ after_flushes document page.now count) }
{
    let mut left = count;
    for line in page {
        if left == 0 {
            return Ok(document);
        }
        match line {
            PageLine::Change(edit) => change(alloc, &mut document, edit)?,
            PageLine::Flush => left -= 1,
            PageLine::Until(_) => {}
        }
    }
    Ok(document)
}
