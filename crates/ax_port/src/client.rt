//! The client's port.
ghost use Rattle.std.specs.Prelude.{◌≡◌, ◌≤◌, false};
ghost use Rattle.turn_word.specs.declared.view.Deed.TheVariants.{Look, Take};
ghost use Rattle.turn_word.specs.Deeds.{last_number};
ghost use Rattle.story_check.specs.Stories.{cap};
ghost use Rattle.story_check.specs.Moments.{tree_at};
ghost use Rattle.change_log.specs.Logs.{span};
ghost use Rattle.ax_port.specs.States.{with_client, over_client, done, taken_up_to};

use crate::ports::Ports;
use ax_base::Moment;
use change_log::ChangeLog;
use std::alloc::Global;
use std::marker::Model;
use std::sync::Wait;
use story_check::Story;
use turn_word::{
    Port, client_acquire, client_close, client_give_back, client_look, exchange_content,
};

/// What one look at the lock's word told the client of the page.
#[derive(Clone, Copy, Debug, PartialEq, Eq)]
pub struct Bell {
    /// How many moments are published.
    pub moment: Moment,
    /// Whether the page is over, so that no further moment comes.
    pub over: bool,
}

/// What the client took.
#[derive(Drop)]
pub struct Taken {
    /// The moment that the client had taken before.
    pub from: Moment,
    /// The moment up to which it has taken now: all that was published as it had the lock.
    pub to: Moment,
    /// What is logged of the moments after `from`, up to `to`.
    pub log: ChangeLog,
}

/// The client's port. Contracts see its lock, its story and what the client has done.
#[derive(Drop)]
pub struct ClientPort {
    pub(crate) alloc: Global,
    pub(crate) seat: Port<ChangeLog, Story>,
}

impl Model for ClientPort {
    ghost use Rattle.std.specs.Prelude.{◌≡◌, None};
    ghost use Rattle.turn_word.specs.Ports.{IsTurnTable, IsClient};
    ghost use Rattle.ax_port.specs.States.{ClientState, story_or, client_or};

    ghost Value = { ClientState };

    ghost view = { λ p. record { table = p.seat.table_id; story = story_or p.seat.me.0.story; client = client_or p.seat.me.0.client } };

    ghost invariant = { λ p. IsTurnTable p.seat.table_id × IsClient p.seat.me (λ d r. r.held ≡ None) };
}

impl ClientPort {
    /// Looks once how many moments are published, and whether the page is over. It waits for nobody and takes no memory.
    pub fn hear(&mut self, ports: &Ports) -> Bell
        requires { self.old.table ≡ ports.now.table }
        ensures deed { self.new ≡ with_client self.old (done self.old.client (Look result.moment result.over)) }
        ensures rises { last_number 0 self.old.client.deeds ≤ result.moment }
        ensures capped { result.moment ≤ cap self.old.story.page self.old.client.taken }
    {
        let found = client_look(&ports.table.shared, &mut self.seat);
        Bell {
            moment: Moment(found.published),
            over: found.page_over,
        }
    }

    /// Takes all that is published: waits for the lock, leaves the empty log in it, and answers the log that was there. It
    /// takes no memory and has no refusal.
    pub fn take<R: Wait>(&mut self, rt: &R, ports: &Ports) -> Taken
        requires own { self.old.table ≡ ports.now.table }
        requires going { self.old.client.over ≡ false }
        ensures deed { self.new ≡ with_client self.old (taken_up_to (done self.old.client (Take result.to)) result.to) }
        ensures from { result.from ≡ self.old.client.taken }
        ensures log { result.log ≡ span (tree_at self.old.story) result.from result.to }
        ensures rises { last_number 0 self.old.client.deeds ≤ result.to }
        ensures goes_on { result.from ≤ result.to }
        ensures capped { result.to ≤ cap self.old.story.page result.from }
    {
        let found = client_acquire(rt, &ports.table.shared, &mut self.seat);
        let empty = ChangeLog::empty(self.alloc);
        let log = exchange_content(&ports.table.shared, &mut self.seat, empty);
        client_give_back(&ports.table.shared, &mut self.seat, found);
        Taken {
            from: Moment(found.taken),
            to: Moment(found.published),
            log,
        }
    }

    /// Tells the page that the client is over. It waits for nobody and takes no memory.
    pub fn close(&mut self, ports: &Ports)
        requires { self.old.table ≡ ports.now.table }
        ensures { self.new ≡ with_client self.old (over_client self.old.client) }
    {
        client_close(&ports.table.shared, &mut self.seat);
    }
}
