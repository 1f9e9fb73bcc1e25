//! The client's lines, one after another.
ghost use Rattle.std.specs.Prelude.{◌≡◌, ◌≤◌, ◌∷◌, List, length, true};
ghost use Rattle.turn_word.specs.Views.{new_client};
ghost use Rattle.story_check.specs.declared.limits.TheConstants.{MAX_CLIENT_LINES};
ghost use Rattle.story_check.specs.declared.story.ClientLine.{ClientLine};
ghost use Rattle.story_check.specs.Stories.{flushes};
ghost use Rattle.story_check.specs.Moments.{tree_at, AreTrees};
ghost use Rattle.ax_port.specs.States.{SameClient};
ghost use Rattle.ax_client.specs.Clients.{ClientStands, LineDid, ClientDid};

use crate::ClientEnd;
use crate::lines::{again, asked, awaited, heard, noticed};
use crate::steps::Side;
use ax_ask::{Entries, Transcript};
use ax_base::{Moment, Notices, Who};
use ax_edge::Gate;
use ax_port::{ClientPort, Ports};
use isolated_map::Isolated;
use std::alloc::Global;
use std::sync::Wait;
use story_check::ClientLine;

/// Does all lines of the client, in order, and closes the port. `count` is the number of flushes of the story.
///
/// The tree is that of moment 0. `gate` is told of each line before it is done. The call waits for the lock, and at an
/// `await` for the page. It is handed no document: what it answers comes from its tree, which it patches with what it takes.
pub fn client_work<R: Wait, G: Gate>(
    rt: &R,
    alloc: Global,
    ports: &Ports,
    port: ClientPort,
    lines: &[ClientLine],
    count: u32,
    tree: Isolated,
    gate: &G,
) -> (ClientPort, ClientEnd)
    requires own { port.table ≡ ports.now.table }
    requires fresh { port.client ≡ new_client }
    requires lines { lines.now ≡ port.story.client }
    requires few { length lines.now ≤ MAX_CLIENT_LINES }
    requires flushes { count ≡ flushes port.story.page }
    requires trees { AreTrees port.story }
    requires tree { tree ≡ tree_at port.story 0 }
    ensures own { SameClient port result.0 }
    ensures over { result.0.client.over ≡ true }
    ensures did { ClientDid port.story result.0.client result.1 }
{
    let mut port = port;
    let mut side = Side {
        tree,
        moment: Moment(0),
        pending: Notices::new(alloc),
        entries: Entries::new(alloc),
        done: 0,
    };
    for line in lines {
        gate.at(Who::Client, side.done + 1);
        match line_done(rt, alloc, ports, &mut port, side, line) {
            Ok(next) => side = next,
            Err(end) => {
                port.close(ports);
                return (port, end);
            }
        }
    }
    port.close(ports);
    let told = Transcript {
        entries: side.entries,
        flushes: count,
    };
    (port, ClientEnd::Done(told))
}

/// Does one line.
fn line_done<R: Wait>(
    rt: &R,
    alloc: Global,
    ports: &Ports,
    port: &mut ClientPort,
    side: Side,
    line: &ClientLine,
) -> Result<Side, ClientEnd>
    requires own { port.old.table ≡ ports.now.table }
    requires stands { (left : List ClientLine) × ClientStands port.old.story (line.now ∷ left) port.old.client side }
    ensures own { SameClient port.old port.new }
    ensures did { (left : List ClientLine) → ClientStands port.old.story (line.now ∷ left) port.old.client side → LineDid port.old.story left port.new.client result }
{
    match line {
        ClientLine::Ask(request) => asked(rt, alloc, ports, port, side, request),
        ClientLine::Again(request) => again(alloc, port, side, request),
        ClientLine::Hear => heard(ports, port, side),
        ClientLine::Await(need) => awaited(rt, ports, port, side, *need),
        ClientLine::Notices => noticed(alloc, port, side),
    }
}
