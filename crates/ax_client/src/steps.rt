//! What several lines do.
ghost use Rattle.std.specs.Prelude.{◌≡◌, ◌+◌, ◌≤◌, ◌<◌, ◌∷◌, ◌++◌, [], false, IfOk, MatchOption};
ghost use Rattle.turn_word.specs.Deeds.{last_number};
ghost use Rattle.story_check.specs.declared.limits.TheConstants.{MAX_CLIENT_LINES};
ghost use Rattle.story_check.specs.Moments.{tree_at, AreTrees};
ghost use Rattle.ax_port.specs.States.{SameClient};
ghost use Rattle.ax_client.specs.Clients.{Took, Listened, with_entry};
ghost use Rattle.ax_client.specs.Follow.{LastWasOver};

use ax_ask::{Entries, Entry, EntryBody};
use ax_base::{Moment, NoMemory, Notices};
use ax_port::{ClientPort, Ports};
use isolated_map::Isolated;
use std::sync::Wait;
use std::thread;

/// What the client's worker keeps between two lines.
#[derive(Drop)]
pub(crate) struct Side {
    /// The private copy of the tree, from which alone it answers.
    pub(crate) tree: Isolated,
    /// The moment of that tree.
    pub(crate) moment: Moment,
    /// The notices that were taken and not told.
    pub(crate) pending: Notices,
    /// What was printed.
    pub(crate) entries: Entries,
    /// How many lines are done.
    pub(crate) done: u32,
}

/// Takes all that is published, and patches the tree after the lock is free again.
pub(crate) fn take_all<R: Wait>(
    rt: &R,
    ports: &Ports,
    port: &mut ClientPort,
    side: Side,
) -> Result<Side, NoMemory>
    requires own { port.old.table ≡ ports.now.table }
    requires going { port.old.client.over ≡ false }
    requires trees { AreTrees port.old.story }
    requires tree { side.tree ≡ tree_at port.old.story port.old.client.taken }
    ensures own { SameClient port.old port.new }
    ensures took { IfOk result (Took port.old.story port.old.client port.new.client side) }
{
    let taken = port.take(rt, ports);
    let (tree, notices) = side.tree.patch(taken.log)?;
    let mut pending = side.pending;
    pending.extend(notices)?;
    Ok(Side {
        tree,
        moment: taken.to,
        pending,
        ..side
    })
}

/// Looks until moment `need` is published. Answers what is published where the page is over before that.
///
/// A look that finds nothing new yields the processor, so that a page on the same one comes to its turn.
pub(crate) fn listened<R: Wait>(
    rt: &R,
    ports: &Ports,
    port: &mut ClientPort,
    need: Moment,
) -> Option<Moment>
    requires { port.old.table ≡ ports.now.table }
    ensures listens { Listened port.old port.new }
    ensures hears { MatchOption result (need ≤ last_number 0 port.new.client.deeds) (λ have. LastWasOver have port.new.client.deeds × (have < need)) }
{
    for _ in rt.forever() {
        let bell = port.hear(ports);
        if bell.moment.number() >= need.number() {
            return None;
        }
        if bell.over {
            return Some(bell.moment);
        }
        thread::yield_now();
    }
    unreachable!()
}

/// Prints the entry of a line.
pub(crate) fn printed(side: Side, moment: Moment, body: EntryBody) -> Result<Side, NoMemory>
    requires { side.done < MAX_CLIENT_LINES }
    ensures { IfOk result (λ next. next ≡ with_entry side moment body) }
{
    let number = side.done + 1;
    let mut entries = side.entries;
    entries.push(Entry {
        number,
        moment,
        body,
    })?;
    Ok(Side {
        entries,
        done: number,
        ..side
    })
}
