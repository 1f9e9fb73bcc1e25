//! The ports on one thread and on two. That a thread is served, or how soon, is proved by nothing.
ghost use Rattle.std.specs.Prelude.{◌≡◌, ◌+◌, ◌<◌, false, IfOk, OnOk};
ghost use Rattle.ax_port.specs.Quiet.{IsQuiet, IsAt};

use crate::{Bell, ClientPort, PagePort, Ports, Taken, open_ports};
use ax_base::{Ids, Moment, NoMemory, Notices};
use ax_batch::{Batch, Changes, Records};
use change_log::{ChangeLog, LogEntries};
use std::alloc::Global;
use std::sync::Wait;
use std::test::Fail;
use std::thread;
use story_check::{PageLine, Story};

/// How many moments two threads hand over.
const MOMENTS: u32 = 10_000;

/// A story whose page flushes so often, and does nothing else.
#[tactic(auto, using(crate::proofs::QuietLaws::one_more))]
fn quiet_story(alloc: Global, count: u32) -> Result<Story, Fail>
    ensures { IfOk result (λ s. IsQuiet s count) }
{
    let mut page = Vec::new(alloc);
    for done in 0..count {
        let _done = done;
        page.push(PageLine::Flush)?;
    }
    match Story::new(Vec::new(alloc), page, Vec::new(alloc), Vec::new(alloc)) {
        Some(story) => Ok(story),
        None => Err(Fail::from("too many flushes")),
    }
}

/// The lock and the ports of a story whose page flushes so often.
#[tactic(auto, using(crate::proofs::QuietLaws::begins))]
fn opened(alloc: Global, count: u32) -> Result<(Ports, PagePort, ClientPort), Fail>
    ensures page { IfOk result (λ r. IsAt r.0 count 0 r.1) }
    ensures client { IfOk result (λ r. (r.2.table ≡ r.0.table) × (r.2.client.over ≡ false)) }
{
    let story = quiet_story(alloc, count)?;
    let (ports, page, client) = open_ports(alloc, &story)?;
    Ok((ports, page, client))
}

/// Publishes a moment in which nothing changed, of a story of so many.
#[tactic(auto, using(crate::proofs::QuietLaws::goes_on))]
fn publish<R: Wait>(
    rt: &R,
    alloc: Global,
    ports: &Ports,
    port: &mut PagePort,
    count: u32,
    so_far: u32,
) -> Result<(), NoMemory>
    requires at { IsAt ports.now count so_far port.old }
    requires left { so_far < count }
    ensures ok { OnOk result (IsAt ports.now count (so_far + 1) port.new) }
    ensures own { port.new.table ≡ ports.now.table }
{
    let batch = Batch {
        added: Records::new(alloc),
        changed: Changes::new(alloc),
        removed: Ids::new(alloc),
        focus: None,
    };
    match port.publish(rt, ports, batch, Notices::new(alloc)) {
        Ok(_) => Ok(()),
        Err(error) => Err(error),
    }
}

/// Looks, and then takes all that is published.
fn look_and_take<R: Wait>(rt: &R, ports: &Ports, port: &mut ClientPort) -> (Bell, Taken)
    requires own { port.old.table ≡ ports.now.table }
    requires going { port.old.client.over ≡ false }
    ensures own { port.new.table ≡ ports.now.table }
    ensures going { port.new.client.over ≡ false }
{
    let bell = port.hear(ports);
    let taken = port.take(rt, ports);
    (bell, taken)
}

/// Whether a log changes nothing and tells nothing.
fn is_quiet(log: ChangeLog) -> bool {
    let LogEntries { batch, notices } = log.into_entries();
    batch.added.as_slice().is_empty()
        && batch.changed.as_slice().is_empty()
        && batch.removed.as_slice().is_empty()
        && batch.focus.is_none()
        && notices.as_slice().is_empty()
}

/// Whether a take went on from there, and its log tells of quiet moments alone.
fn goes_on(taken: Taken, last: u32) -> bool {
    taken.from.number() == last && is_quiet(taken.log)
}

#[test]
fn one_thread_publishes_and_takes(rt: HostRuntime) -> Result<(), Fail> {
    let alloc = rt.alloc();
    let (ports, mut page, mut client) = opened(alloc, 4)?;
    publish(&rt, alloc, &ports, &mut page, 4, 0)?;
    publish(&rt, alloc, &ports, &mut page, 4, 1)?;
    publish(&rt, alloc, &ports, &mut page, 4, 2)?;
    let (bell, taken) = look_and_take(&rt, &ports, &mut client);
    publish(&rt, alloc, &ports, &mut page, 4, 3)?;
    page.close(&ports);
    client.close(&ports);
    let last = ports.finish(page, client);
    assert!(rt; bell.moment == Moment(3) && taken.to == Moment(3) && goes_on(taken, 0));
    assert!(rt; last.published == Moment(4) && last.taken == Moment(3));
    assert!(rt; is_quiet(last.log));
    Ok(())
}

/// Publishes all moments, and closes the port. It stops where there is no memory.
fn publish_all<R: Wait>(rt: &R, alloc: Global, ports: &Ports, port: PagePort) -> PagePort
    requires { IsAt ports.now MOMENTS 0 port }
    ensures { result.table ≡ ports.now.table }
{
    let mut port = port;
    for done in 0..MOMENTS {
        if publish(rt, alloc, ports, &mut port, MOMENTS, done).is_err() {
            port.close(ports);
            return port;
        }
    }
    port.close(ports);
    port
}

/// Takes until the page is over, and closes the port. Answers whether each take went on where the one before it had ended.
fn take_all<R: Wait>(rt: &R, ports: &Ports, port: ClientPort) -> (ClientPort, bool)
    requires own { port.table ≡ ports.now.table }
    requires going { port.client.over ≡ false }
    ensures { result.0.table ≡ ports.now.table }
{
    let mut port = port;
    let mut last = 0;
    let mut in_order = true;
    for _ in rt.forever() {
        let (bell, taken) = look_and_take(rt, ports, &mut port);
        let to = taken.to.number();
        let went_on = goes_on(taken, last);
        in_order = in_order && went_on;
        last = to;
        if bell.over {
            port.close(ports);
            return (port, in_order);
        }
        thread::yield_now();
    }
    unreachable!()
}

#[test]
fn two_threads_hand_moments_over(rt: HostRuntime) -> Result<(), Fail> {
    let alloc = rt.alloc();
    let (ports, page, client) = opened(alloc, MOMENTS)?;
    let shared = &ports;
    let (page, (client, in_order)) = thread::join(
        &rt,
        || -> PagePort
            requires { IsAt shared.now MOMENTS 0 page }
            ensures { result.table ≡ shared.entry.now.table }
        { publish_all(&rt, alloc, shared, page) },
        || -> (ClientPort, bool)
            requires { (client.table ≡ shared.now.table) × (client.client.over ≡ false) }
            ensures { result.0.table ≡ shared.entry.now.table }
        { take_all(&rt, shared, client) },
    );
    let last = ports.finish(page, client);
    assert!(rt; in_order && last.published == Moment(MOMENTS) && last.taken == Moment(MOMENTS));
    assert!(rt; is_quiet(last.log));
    Ok(())
}
