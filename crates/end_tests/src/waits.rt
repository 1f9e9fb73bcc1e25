//! Each side by itself, in a story in which both wait: the other one closed its port before it did anything.
ghost use Rattle.std.specs.Prelude.{IfOk};
ghost use Rattle.story_check.specs.Moments.{IsAccepted};

use ax_base::{Moment, NoMemory};
use ax_client::{ClientEnd, client_work};
use ax_edge::OpenGate;
use ax_port::open_ports;
use isolated_map::Isolated;
use live_tree::LiveTree;
use page_thread::{PageEnd, page_work};
use std::alloc::Global;
use std::sync::Wait;
use std::test::Fail;
use story_check::{Story, accept, base_dom};

/// A page that flushes and waits until that is taken, and a client that awaits it.
const WAITING: &str = "{\"start\":1}\n{\"flush\":true}\n{\"until\":1}\n{\"await\":1}\n";

/// The story in which both wait.
fn waiting(alloc: Global) -> Result<Story, Fail>
    ensures { IfOk result IsAccepted }
{
    match accept(alloc, WAITING.as_bytes()) {
        Ok(story) => Ok(story),
        Err(_) => Err(Fail::from("the story was not accepted")),
    }
}

/// How the page ends where its client is over and took nothing.
fn page_alone<R: Wait>(rt: &R, alloc: Global, story: &Story) -> Result<PageEnd, NoMemory>
    requires { IsAccepted story.now }
{
    let (ports, page, mut client) = open_ports(alloc, story)?;
    let document = base_dom(alloc, story)?;
    let live = LiveTree::new(alloc, document)?;
    client.close(&ports);
    let (page, end) = page_work(rt, alloc, &ports, page, story, live, &OpenGate);
    let _last = ports.finish(page, client);
    Ok(end)
}

#[test]
fn the_page_gives_up_a_wait_for_a_client_that_is_over(rt: HostRuntime) -> Result<(), Fail> {
    let alloc = rt.alloc();
    let story = waiting(alloc)?;
    let end = page_alone(&rt, alloc, &story)?;
    let ended = PageEnd::Ended {
        need: Moment(1),
        have: Moment(0),
    };
    assert!(rt; end == ended);
    Ok(())
}

/// How the client ends where its page is over and published nothing.
fn client_alone<R: Wait>(rt: &R, alloc: Global, story: &Story) -> Result<ClientEnd, NoMemory>
    requires { IsAccepted story.now }
{
    let (ports, mut page, client) = open_ports(alloc, story)?;
    let document = base_dom(alloc, story)?;
    let live = LiveTree::new(alloc, document)?;
    let tree = Isolated::from_tree(alloc, &live)?;
    page.close(&ports);
    let (client, end) = client_work(
        rt,
        alloc,
        &ports,
        client,
        story.client(),
        story.flushes(),
        tree,
        &OpenGate,
    );
    let _last = ports.finish(page, client);
    Ok(end)
}

/// Whether the client gave up a wait for moment 1 at moment 0.
fn gave_up(end: ClientEnd) -> bool {
    match end {
        ClientEnd::Done(_) => false,
        ClientEnd::NoMemory => false,
        ClientEnd::Ended { need, have } => need == Moment(1) && have == Moment(0),
    }
}

#[test]
fn the_client_gives_up_a_wait_for_a_page_that_is_over(rt: HostRuntime) -> Result<(), Fail> {
    let alloc = rt.alloc();
    let story = waiting(alloc)?;
    let end = client_alone(&rt, alloc, &story)?;
    assert!(rt; gave_up(end));
    Ok(())
}
