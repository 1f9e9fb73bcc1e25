//! The lock that both ports share, its start and its end.
ghost use Rattle.std.specs.Prelude.{◌≡◌, IfOk};
ghost use Rattle.turn_word.specs.Views.{new_page, new_client};
ghost use Rattle.story_check.specs.Moments.{tree_at};
ghost use Rattle.change_log.specs.Logs.{span};
ghost use Rattle.ax_port.specs.States.{IsLast};

use crate::client::ClientPort;
use crate::content::Spans;
use crate::page::PagePort;
use ax_base::{Moment, NoMemory};
use change_log::ChangeLog;
use std::alloc::Global;
use std::marker::Model;
use story_check::Story;
use turn_word::{
    TurnTable, finish, new_seat, open, part_client, part_page, rejoin_client, rejoin_page,
};

/// The lock that the two ports of a story share. Contracts see which lock it is, and the story.
#[derive(Drop)]
pub struct Ports {
    pub(crate) table: TurnTable<ChangeLog, Story, Spans>,
}

impl Model for Ports {
    ghost use Rattle.turn_word.specs.Ports.{IsTurnTable};
    ghost use Rattle.ax_port.specs.States.{PortsState};

    ghost Value = { PortsState };

    ghost view = { λ p. record { table = p.table.shared.table_id; story = p.table.shared.key } };

    ghost invariant = { λ p. IsTurnTable p.table.shared.table_id };
}

/// The last state of a lock.
#[derive(Drop)]
pub struct Final {
    /// How many moments the page published.
    pub published: Moment,
    /// The moment that the client took last.
    pub taken: Moment,
    /// What is logged of the moments that were published and not taken.
    pub log: ChangeLog,
}

/// A free lock for a story, with nothing published or taken and the empty log, and its two ports.
pub fn open_ports(alloc: Global, story: &Story) -> Result<(Ports, PagePort, ClientPort), NoMemory>
    ensures tables { IfOk result (λ r. (r.1.table ≡ r.0.table) × (r.2.table ≡ r.0.table)) }
    ensures stories { IfOk result (λ r. (r.0.story ≡ story.now) × (r.1.story ≡ story.now) × (r.2.story ≡ story.now)) }
    ensures records { IfOk result (λ r. (r.1.page ≡ new_page) × (r.2.client ≡ new_client)) }
{
    let _flushes = story.flushes();
    let (table, mut seat) = open::<ChangeLog, Story, Spans>(alloc, ChangeLog::empty(alloc), story)?;
    let page = part_page(&table.shared, &mut seat);
    let client = part_client(&table.shared, &mut seat);
    Ok((
        Ports { table },
        PagePort { alloc, seat: page },
        ClientPort {
            alloc,
            seat: client,
        },
    ))
}

impl Ports {
    /// Ends the lock and gives its last state. Both ports are used up. It waits for nobody and takes no memory.
    pub fn finish(self, page: PagePort, client: ClientPort) -> Final
        requires page { page.table ≡ self.table }
        requires client { client.table ≡ self.table }
        ensures published { result.published ≡ page.page.published }
        ensures taken { result.taken ≡ client.client.taken }
        ensures log { result.log ≡ span (tree_at self.story) result.taken result.published }
        ensures last { IsLast self.story page.page client.client }
    {
        let Ports { table } = self;
        let mut seat = new_seat(&table.shared);
        let PagePort { seat: page, .. } = page;
        let ClientPort { seat: client, .. } = client;
        rejoin_page(&table.shared, &mut seat, page);
        rejoin_client(&table.shared, &mut seat, client);
        let (word, log) = finish(table, seat);
        Final {
            published: Moment(word.published),
            taken: Moment(word.taken),
            log,
        }
    }
}
