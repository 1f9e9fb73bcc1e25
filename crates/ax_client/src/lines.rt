//! One call for each form of the client's lines.
ghost use Rattle.std.specs.Prelude.{◌≡◌, ◌∷◌, List};
ghost use Rattle.story_check.specs.declared.story.ClientLine.{ClientLine};
ghost use Rattle.story_check.specs.declared.story.ClientLine.TheVariants.{Ask, Again, Hear, Await, Notices as NoticesLine};
ghost use Rattle.ax_port.specs.States.{SameClient};
ghost use Rattle.ax_client.specs.Clients.{ClientStands, LineDid};

use crate::ClientEnd;
use crate::steps::{Side, listened, printed, take_all};
use ax_answer::answer;
use ax_ask::{EntryBody, Request};
use ax_base::{Moment, Notices};
use ax_port::{ClientPort, Ports};
use std::alloc::Global;
use std::sync::Wait;

/// Takes all that is published, and answers from there.
pub(crate) fn asked<R: Wait>(
    rt: &R,
    alloc: Global,
    ports: &Ports,
    port: &mut ClientPort,
    side: Side,
    request: &Request,
) -> Result<Side, ClientEnd>
    requires own { port.old.table ≡ ports.now.table }
    requires stands { (left : List ClientLine) × ClientStands port.old.story (Ask request.now ∷ left) port.old.client side }
    ensures own { SameClient port.old port.new }
    ensures did { (left : List ClientLine) → ClientStands port.old.story (Ask request.now ∷ left) port.old.client side → LineDid port.old.story left port.new.client result }
{
    let taken = take_all(rt, ports, port, side)?;
    let reply = answer(alloc, &taken.tree, request)?;
    let moment = taken.moment;
    Ok(printed(taken, moment, EntryBody::Reply(reply))?)
}

/// Answers from the tree as it is. It takes nothing.
pub(crate) fn again(
    alloc: Global,
    port: &mut ClientPort,
    side: Side,
    request: &Request,
) -> Result<Side, ClientEnd>
    requires stands { (left : List ClientLine) × ClientStands port.old.story (Again request.now ∷ left) port.old.client side }
    ensures own { SameClient port.old port.new }
    ensures did { (left : List ClientLine) → ClientStands port.old.story (Again request.now ∷ left) port.old.client side → LineDid port.old.story left port.new.client result }
{
    let reply = answer(alloc, &side.tree, request)?;
    let moment = side.moment;
    Ok(printed(side, moment, EntryBody::Reply(reply))?)
}

/// Looks once how many moments are published. It takes nothing.
pub(crate) fn heard(ports: &Ports, port: &mut ClientPort, side: Side) -> Result<Side, ClientEnd>
    requires own { port.old.table ≡ ports.now.table }
    requires stands { (left : List ClientLine) × ClientStands port.old.story (Hear ∷ left) port.old.client side }
    ensures own { SameClient port.old port.new }
    ensures did { (left : List ClientLine) → ClientStands port.old.story (Hear ∷ left) port.old.client side → LineDid port.old.story left port.new.client result }
{
    let bell = port.hear(ports);
    Ok(printed(side, bell.moment, EntryBody::Hear)?)
}

/// Waits until a moment is published, and takes it.
pub(crate) fn awaited<R: Wait>(
    rt: &R,
    ports: &Ports,
    port: &mut ClientPort,
    side: Side,
    need: Moment,
) -> Result<Side, ClientEnd>
    requires own { port.old.table ≡ ports.now.table }
    requires stands { (left : List ClientLine) × ClientStands port.old.story (Await need ∷ left) port.old.client side }
    ensures own { SameClient port.old port.new }
    ensures did { (left : List ClientLine) → ClientStands port.old.story (Await need ∷ left) port.old.client side → LineDid port.old.story left port.new.client result }
{
    if let Some(have) = listened(rt, ports, port, need) {
        return Err(ClientEnd::Ended { need, have });
    }
    let side = take_all(rt, ports, port, side)?;
    let moment = side.moment;
    Ok(printed(side, moment, EntryBody::Await)?)
}

/// Tells the notices that were taken and not told yet.
pub(crate) fn noticed(alloc: Global, port: &mut ClientPort, side: Side) -> Result<Side, ClientEnd>
    requires stands { (left : List ClientLine) × ClientStands port.old.story (NoticesLine ∷ left) port.old.client side }
    ensures own { SameClient port.old port.new }
    ensures did { (left : List ClientLine) → ClientStands port.old.story (NoticesLine ∷ left) port.old.client side → LineDid port.old.story left port.new.client result }
{
    let told = side.pending;
    let moment = side.moment;
    let side = Side {
        pending: Notices::new(alloc),
        ..side
    };
    Ok(printed(side, moment, EntryBody::Notices(told))?)
}
