//! The page's port.
ghost use Rattle.std.specs.Prelude.{◌≡◌, ◌+◌, ◌≤◌, false, MatchResult};
ghost use Rattle.story_check.specs.Stories.{cap};
ghost use Rattle.story_check.specs.Moments.{tree_at};
ghost use Rattle.change_log.specs.Logs.{entry_after};
ghost use Rattle.ax_port.specs.States.{with_page, published_more, looked, over_page};

use crate::ports::Ports;
use ax_base::{Moment, NoMemory, Notices};
use ax_batch::Batch;
use change_log::ChangeLog;
use std::alloc::Global;
use std::marker::Model;
use std::sync::Wait;
use story_check::Story;
use turn_word::{
    Port, exchange_content, page_acquire, page_close, page_give_back, page_look, page_publish,
};

/// What one look at the lock's word told the page of the client.
#[derive(Clone, Copy, Debug, PartialEq, Eq)]
pub struct TakenSeen {
    /// The moment that the client has taken.
    pub moment: Moment,
    /// Whether the client is over, so that it takes no further moment.
    pub over: bool,
}

/// The page's port. Contracts see its lock, its story and what the page has done.
#[derive(Drop)]
pub struct PagePort {
    pub(crate) alloc: Global,
    pub(crate) seat: Port<ChangeLog, Story>,
}

impl Model for PagePort {
    ghost use Rattle.std.specs.Prelude.{◌≡◌, ◌≤◌, ◌+◌, None};
    ghost use Rattle.turn_word.specs.Ports.{IsTurnTable, IsPage};
    ghost use Rattle.story_check.specs.declared.limits.TheConstants.{MAX_FLUSHES};
    ghost use Rattle.story_check.specs.Stories.{flushes};
    ghost use Rattle.ax_port.specs.States.{PageState, story_or, page_or};

    ghost Value = { PageState };

    ghost view = { λ p. record { table = p.seat.table_id; story = story_or p.seat.me.0.story; page = page_or p.seat.me.0.page } };

    ghost invariant = { λ p. IsTurnTable p.seat.table_id × IsPage p.seat.me (λ d r. (r.held ≡ None) × (flushes d.page ≤ MAX_FLUSHES + 1)) };
}

impl PagePort {
    /// Publishes the next moment: waits for the lock, appends to the log in it, and answers how many moments are published
    /// now. At `Err`, want of memory, nothing is published and the lock is free.
    pub fn publish<R: Wait>(
        &mut self,
        rt: &R,
        ports: &Ports,
        batch: Batch,
        notices: Notices,
    ) -> Result<Moment, NoMemory>
        requires own { self.old.table ≡ ports.now.table }
        requires going { self.old.page.over ≡ false }
        requires next { record { batch = batch; notices = notices } ≡ entry_after (tree_at self.old.story) self.old.page.published }
        requires cap { self.old.page.published + 1 ≤ cap self.old.story.page self.old.page.seen }
        ensures { MatchResult result (λ n. (n ≡ self.old.page.published + 1) × (self.new ≡ with_page self.old (published_more self.old.page))) (λ _. self.new ≡ self.old) }
    {
        let found = page_acquire(rt, &ports.table.shared, &mut self.seat);
        let spare = ChangeLog::empty(self.alloc);
        let mut log = exchange_content(&ports.table.shared, &mut self.seat, spare);
        let appended = log.append(batch, notices);
        let _empty = exchange_content(&ports.table.shared, &mut self.seat, log);
        match appended {
            Ok(()) => {
                page_publish(&ports.table.shared, &mut self.seat);
                Ok(Moment(found.published + 1))
            }
            Err(error) => {
                page_give_back(&ports.table.shared, &mut self.seat);
                Err(error)
            }
        }
    }

    /// Looks once which moment the client has taken, and whether it is over. It waits for nobody and takes no memory.
    pub fn taken(&mut self, ports: &Ports) -> TakenSeen
        requires { self.old.table ≡ ports.now.table }
        ensures looks { self.new ≡ with_page self.old (looked self.old.page result.moment result.over) }
        ensures rises { self.old.page.seen ≤ result.moment }
    {
        let found = page_look(&ports.table.shared, &mut self.seat);
        TakenSeen {
            moment: Moment(found.taken),
            over: found.client_over,
        }
    }

    /// Tells the client that the page is over. It waits for nobody and takes no memory.
    pub fn close(&mut self, ports: &Ports)
        requires { self.old.table ≡ ports.now.table }
        ensures { self.new ≡ with_page self.old (over_page self.old.page) }
    {
        page_close(&ports.table.shared, &mut self.seat);
    }
}
