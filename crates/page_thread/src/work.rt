//! The page's lines, one after another.
ghost use Rattle.std.specs.Prelude.{◌≡◌, ◌+◌, ◌≤◌, ◌<◌, ◌∷◌, List, true, IfOk, OnOk, MatchOption};
ghost use Rattle.turn_word.specs.Views.{new_page};
ghost use Rattle.ax_dom.specs.Changes.{edited};
ghost use Rattle.ax_record.specs.Records.{tree};
ghost use Rattle.story_check.specs.declared.story.PageLine.{PageLine};
ghost use Rattle.story_check.specs.declared.story.PageLine.TheVariants.{Flush};
ghost use Rattle.story_check.specs.Moments.{tree_at, document_at, MayBeDone, IsAccepted};
ghost use Rattle.live_tree.specs.LiveTrees.{unmarked};
ghost use Rattle.ax_port.specs.States.{SamePage, published_more};
ghost use Rattle.page_thread.specs.Pages.{Looked, PageStands, LineDid, PageDid};

use crate::PageEnd;
use ax_base::{Moment, NoMemory, Who};
use ax_dom::Edit;
use ax_edge::Gate;
use ax_port::{PagePort, Ports};
use live_tree::{LiveTree, flush_uncounted};
use std::alloc::Global;
use std::sync::Wait;
use std::thread;
use story_check::{PageLine, Story};

/// What the page's worker keeps between two lines: its live tree, and how many moments it published.
#[derive(Drop)]
struct Side {
    live: LiveTree,
    published: u32,
}

/// Does all lines of the page, in order, and closes the port.
///
/// The live tree is that of moment 0 with nothing edited since. `gate` is told of each line before it is done. The call
/// waits for the lock, and at an `until` for the client.
pub fn page_work<R: Wait, G: Gate>(
    rt: &R,
    alloc: Global,
    ports: &Ports,
    port: PagePort,
    story: &Story,
    live: LiveTree,
    gate: &G,
) -> (PagePort, PageEnd)
    requires own { port.table ≡ ports.now.table }
    requires story { port.story ≡ story.now }
    requires accepted { IsAccepted story.now }
    requires fresh { port.page ≡ new_page }
    requires live { live ≡ unmarked (tree_at story.now 0) (document_at story.now 0) }
    ensures own { SamePage port result.0 }
    ensures over { result.0.page.over ≡ true }
    ensures did { PageDid story.now result.0.page result.1 }
{
    let mut port = port;
    let mut side = Side { live, published: 0 };
    let mut turn: u32 = 0;
    for line in story.page() {
        turn = turn.saturating_add(1);
        gate.at(Who::Page, turn);
        match line_done(rt, alloc, ports, &mut port, side, line) {
            Ok(next) => side = next,
            Err(end) => {
                port.close(ports);
                return (port, end);
            }
        }
    }
    port.close(ports);
    (port, PageEnd::Done)
}

/// Does one line.
fn line_done<R: Wait>(
    rt: &R,
    alloc: Global,
    ports: &Ports,
    port: &mut PagePort,
    side: Side,
    line: &PageLine,
) -> Result<Side, PageEnd>
    requires own { port.old.table ≡ ports.now.table }
    requires stands { (left : List PageLine) × PageStands port.old.story (line.now ∷ left) port.old.page side }
    ensures own { SamePage port.old port.new }
    ensures did { (left : List PageLine) → PageStands port.old.story (line.now ∷ left) port.old.page side → LineDid port.old.story left port.new.page result }
{
    match line {
        PageLine::Change(edit) => Ok(changed(alloc, side, edit)?),
        PageLine::Flush => Ok(flushed(rt, alloc, ports, port, side)?),
        PageLine::Until(need) => match looked(rt, ports, port, *need) {
            None => Ok(side),
            Some(have) => Err(PageEnd::Ended { need: *need, have }),
        },
    }
}

/// Edits the document. Nothing refuses the edit, so only memory can be wanting.
fn changed(alloc: Global, side: Side, edit: &Edit) -> Result<Side, NoMemory>
    requires { MayBeDone side.live.document edit.now }
    ensures { IfOk result (λ next. next ≡ record { live = record { flushed = side.live.flushed; document = edited side.live.document edit.now; marks = next.live.marks }; published = side.published }) }
{
    let Side {
        mut live,
        published,
    } = side;
    match live.edit(alloc, edit) {
        Ok(()) => Ok(Side { live, published }),
        Err(_) => Err(NoMemory),
    }
}

/// Publishes what has changed as the next moment. The tree is flushed before the lock is taken.
fn flushed<R: Wait>(
    rt: &R,
    alloc: Global,
    ports: &Ports,
    port: &mut PagePort,
    side: Side,
) -> Result<Side, NoMemory>
    requires own { port.old.table ≡ ports.now.table }
    requires stands { (left : List PageLine) × PageStands port.old.story (Flush ∷ left) port.old.page side }
    ensures own { SamePage port.old port.new }
    ensures page { OnOk result (port.new.page ≡ published_more port.old.page) }
    ensures side { IfOk result (λ next. next ≡ record { live = unmarked (tree side.live.document) side.live.document; published = side.published + 1 }) }
{
    let Side { live, published } = side;
    let next = Moment(published + 1);
    let (live, made) = flush_uncounted(alloc, live, next)?;
    let published = port.publish(rt, ports, made.batch, made.notices)?;
    Ok(Side {
        live,
        published: published.number(),
    })
}

/// Looks until the client has taken moment `need`. Answers what it has taken where it is over before that.
///
/// A look that finds nothing new yields the processor, so that a client on the same one comes to its turn.
fn looked<R: Wait>(rt: &R, ports: &Ports, port: &mut PagePort, need: Moment) -> Option<Moment>
    requires { port.old.table ≡ ports.now.table }
    ensures looks { Looked port.old port.new }
    ensures sees { MatchOption result (need ≤ port.new.page.seen) (λ have. (port.new.page.seen ≡ have) × (port.new.page.seen_over ≡ true) × (have < need)) }
{
    for _ in rt.forever() {
        let seen = port.taken(ports);
        if seen.moment.number() >= need.number() {
            return None;
        }
        if seen.over {
            return Some(seen.moment);
        }
        thread::yield_now();
    }
    unreachable!()
}
