//! The two workers as jobs of a spawner.
ghost use Rattle.std.specs.Prelude.{◌≡◌, ◌≤◌, length, true};
ghost use Rattle.turn_word.specs.Views.{new_page, new_client};
ghost use Rattle.story_check.specs.declared.limits.TheConstants.{MAX_CLIENT_LINES};
ghost use Rattle.story_check.specs.Stories.{flushes};
ghost use Rattle.story_check.specs.Moments.{tree_at, document_at, IsAccepted, AreTrees};
ghost use Rattle.live_tree.specs.LiveTrees.{unmarked};
ghost use Rattle.page_thread.specs.Pages.{PageDid};
ghost use Rattle.ax_port.specs.States.{SamePage, SameClient};
ghost use Rattle.ax_client.specs.Clients.{ClientDid};

use ax_client::{ClientEnd, client_work};
use ax_edge::{Gate, Job};
use ax_port::{ClientPort, PagePort, Ports};
use isolated_map::Isolated;
use live_tree::LiveTree;
use page_thread::{PageEnd, page_work};
use std::alloc::Global;
use std::sync::Wait;
use story_check::{ClientLine, Story};

/// The page's side of a run: its worker's arguments.
#[derive(Drop)]
pub(crate) struct PageJob<'a, G: Gate> {
    pub(crate) alloc: Global,
    pub(crate) ports: &'a Ports,
    pub(crate) port: PagePort,
    pub(crate) story: &'a Story,
    pub(crate) live: LiveTree,
    pub(crate) gate: &'a G,
}

/// The client's side of a run: its worker's arguments.
#[derive(Drop)]
pub(crate) struct ClientJob<'a, G: Gate> {
    pub(crate) alloc: Global,
    pub(crate) ports: &'a Ports,
    pub(crate) port: ClientPort,
    pub(crate) lines: &'a [ClientLine],
    pub(crate) flushes: u32,
    pub(crate) tree: Isolated,
    pub(crate) gate: &'a G,
}

impl<'a, G: Gate> Job for PageJob<'a, G> {
    type Out = (PagePort, PageEnd);

    ghost ready = { λ j. (j.port.table ≡ j.ports.now.table) × (j.port.page ≡ new_page) × (j.port.story ≡ j.story.now) × IsAccepted j.story.now × (j.live ≡ unmarked (tree_at j.story.now 0) (document_at j.story.now 0)) };

    ghost gives = { λ j r. SamePage j.port r.0 × PageDid j.story.now r.0.page r.1 };

    fn run<R: Wait>(self, rt: &R) -> (PagePort, PageEnd) {
        let PageJob {
            alloc,
            ports,
            port,
            story,
            live,
            gate,
        } = self;
        page_work(rt, alloc, ports, port, story, live, gate)
    }
}

impl<'a, G: Gate> Job for ClientJob<'a, G> {
    type Out = (ClientPort, ClientEnd);

    ghost ready = { λ j. (j.port.table ≡ j.ports.now.table) × (j.port.client ≡ new_client) × (j.lines.now ≡ j.port.story.client) × (length j.lines.now ≤ MAX_CLIENT_LINES) × (j.flushes ≡ flushes j.port.story.page) × AreTrees j.port.story × (j.tree ≡ tree_at j.port.story 0) };

    ghost gives = { λ j r. SameClient j.port r.0 × ClientDid j.port.story r.0.client r.1 };

    fn run<R: Wait>(self, rt: &R) -> (ClientPort, ClientEnd) {
        let ClientJob {
            alloc,
            ports,
            port,
            lines,
            flushes,
            tree,
            gate,
        } = self;
        client_work(rt, alloc, ports, port, lines, flushes, tree, gate)
    }
}
