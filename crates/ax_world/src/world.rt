//! The core on one thread.
ghost use Rattle.std.specs.Prelude.{◌≡◌, ℕ, ◌+◌, ◌↔◌, ◌≤◌, ◌<◌, IfOk, IsTrue, Some, slice_get, length, false};
ghost use Rattle.story_check.specs.declared.limits.TheConstants.{MAX_CLIENT_LINES, MAX_FLUSHES};
ghost use Rattle.story_check.specs.declared.story.PageLine.TheVariants.{Change, Flush, Until};
ghost use Rattle.story_check.specs.Stories.{Story, flushes, stuck};
ghost use Rattle.story_check.specs.Moments.{IsAccepted};
ghost use Rattle.ax_ask.specs.declared.transcripts.EntryBody.TheVariants.{Reply as ReplyBody, Notices as NoticesBody};
ghost use Rattle.ax_answer.specs.Moments.{answer_at, notices_of};
ghost use Rattle.ax_answer.specs.Legal.{IsLegalTranscript};
ghost use Rattle.ax_world.specs.Machine.{start, step, page_step, client_step, printed, IsOver, IsReached, InRounds, transcript_of, transcript_in_turns};
ghost use Rattle.ax_world.specs.Worlds.{Gives};

use crate::{Turn, playing_ends};
use ax_answer::answer;
use ax_ask::{Entries, Entry, EntryBody, Reply, Request, Transcript};
use ax_base::{Moment, NoMemory, Notices, Who};
use ax_dom::Edit;
use change_log::ChangeLog;
use isolated_map::Isolated;
use live_tree::{LiveTree, flush_uncounted};
use std::alloc::Global;
use std::marker::Model;
use std::snapshot::Snapshot;
use story_check::{ClientLine, PageLine, Story, base_dom};

/// The core between two turns: what the page and the client keep. A clause sees it as the story and the machine's state.
#[derive(Drop)]
pub struct World {
    story: Snapshot<Story>,
    flush_count: u32,
    page_done: usize,
    client_done: usize,
    published: u32,
    taken: u32,
    bell: u32,
    noticed: u32,
    entries: Entries,
    /// The page's tree.
    live: LiveTree,
    /// The moments that are published and not taken.
    log: ChangeLog,
    /// The client's tree.
    client_tree: Isolated,
    /// The notices that were taken and not printed.
    pending: Notices,
}

impl Model for World {
    ghost use Rattle.std.specs.Prelude.{◌≡◌};
    ghost use Rattle.story_check.specs.Stories.{flushes};
    ghost use Rattle.ax_world.specs.Worlds.{Play, IsKept};

    ghost Value = { Play };

    ghost view = { λ w. record { story = w.story.value; state = record { page_done = w.page_done; client_done = w.client_done; published = w.published; taken = w.taken; bell = w.bell; noticed = w.noticed; entries = w.entries } } };

    ghost invariant = { λ w. IsKept w.story.value (record { page_done = w.page_done; client_done = w.client_done; published = w.published; taken = w.taken; bell = w.bell; noticed = w.noticed; entries = w.entries }) w.live w.log w.client_tree w.pending × (w.flush_count ≡ flushes w.story.value.page) };
}

impl World {
    /// The core at moment 0, for a story whose edits are all accepted.
    pub fn new(alloc: Global, story: &Story) -> Result<World, NoMemory>
        requires accepted { IsAccepted story.now }
        ensures { IfOk result (λ w. w ≡ record { story = story.now; state = start }) }
    {
        let document = base_dom(alloc, story)?;
        let live = LiveTree::new(alloc, document)?;
        let client_tree = Isolated::from_tree(alloc, &live)?;
        Ok(World {
            story: Snapshot::of(story),
            flush_count: story.flushes(),
            page_done: 0,
            client_done: 0,
            published: 0,
            taken: 0,
            bell: 0,
            noticed: 0,
            entries: Entries::new(alloc),
            live,
            log: ChangeLog::empty(alloc),
            client_tree,
            pending: Notices::new(alloc),
        })
    }

    /// One turn of a side of the story that the core was made for. The only error is want of memory, and then the core is
    /// given up.
    pub fn turn(self, alloc: Global, story: &Story, who: Who) -> Result<(World, Turn), NoMemory>
        requires { self.story ≡ story.now }
        ensures { IfOk result (Gives self (step story.now self.state who)) }
    {
        match who {
            Who::Page => self.page_turn(alloc, story),
            Who::Client => self.client_turn(alloc, story),
        }
    }

    /// One turn of the page.
    #[tactic(auto, using(std::proofs::lemmas::Bool::Decides::nat_tests))]
    fn page_turn(self, alloc: Global, story: &Story) -> Result<(World, Turn), NoMemory>
        requires { self.story ≡ story.now }
        ensures { IfOk result (Gives self (page_step self.state (slice_get story.now.page self.state.page_done))) }
    {
        let page = story.page();
        if self.page_done >= page.len() {
            return Ok((self, Turn::Done));
        }
        let done = self.page_done + 1;
        match &page[self.page_done] {
            PageLine::Change(edit) => Ok((self.edit(alloc, done, edit)?, Turn::Did)),
            PageLine::Flush => Ok((self.flush(alloc, done)?, Turn::Did)),
            PageLine::Until(need) => {
                let (need, have) = (*need, Moment(self.taken));
                if need.number() <= have.number() {
                    Ok((self.pass_until(done, need), Turn::Did))
                } else {
                    Ok((self, Turn::Waiting { need, have }))
                }
            }
        }
    }

    /// The page does an edit.
    fn edit(self, alloc: Global, done: usize, edit: &Edit) -> Result<World, NoMemory>
        requires line { slice_get self.story.page self.state.page_done ≡ Some (Change edit.now) }
        requires done { done ≡ self.state.page_done + 1 }
        ensures { IfOk result (λ w. w ≡ record { story = self.story; state = record self.state { page_done = done } }) }
    {
        let mut live = self.live;
        match live.edit(alloc, edit) {
            Ok(()) => Ok(World {
                page_done: done,
                live,
                ..self
            }),
            Err(_) => Err(NoMemory),
        }
    }

    /// The page publishes one more moment.
    fn flush(self, alloc: Global, done: usize) -> Result<World, NoMemory>
        requires few { flushes self.story.page ≤ MAX_FLUSHES + 1 }
        requires line { slice_get self.story.page self.state.page_done ≡ Some Flush }
        requires done { done ≡ self.state.page_done + 1 }
        ensures { IfOk result (λ w. w ≡ record { story = self.story; state = record self.state { page_done = done; published = self.state.published + 1 } }) }
    {
        let published = self.published + 1;
        let (live, made) = flush_uncounted(alloc, self.live, Moment(published))?;
        let mut log = self.log;
        log.append(made.batch, made.notices)?;
        Ok(World {
            page_done: done,
            published,
            live,
            log,
            ..self
        })
    }

    /// The page goes on after a wait that is met.
    fn pass_until(self, done: usize, need: Moment) -> World
        requires line { slice_get self.story.page self.state.page_done ≡ Some (Until need) }
        requires done { done ≡ self.state.page_done + 1 }
        ensures { result ≡ record { story = self.story; state = record self.state { page_done = done } } }
    {
        let _met = need;
        World {
            page_done: done,
            ..self
        }
    }

    /// One turn of the client.
    #[tactic(auto, using(std::proofs::lemmas::Bool::Decides::nat_tests))]
    fn client_turn(self, alloc: Global, story: &Story) -> Result<(World, Turn), NoMemory>
        requires { self.story ≡ story.now }
        ensures { IfOk result (Gives self (client_step story.now self.state (slice_get story.now.client self.state.client_done))) }
    {
        let client = story.client();
        if self.client_done >= client.len() {
            return Ok((self, Turn::Done));
        }
        match &client[self.client_done] {
            ClientLine::Ask(request) => Ok((self.take(alloc)?.respond(alloc, request)?, Turn::Did)),
            ClientLine::Again(request) => Ok((self.respond(alloc, request)?, Turn::Did)),
            ClientLine::Hear => {
                let bell = self.published;
                let world = self.print(bell, EntryBody::Hear)?;
                Ok((World { bell, ..world }, Turn::Did))
            }
            ClientLine::Await(need) => {
                let (need, have) = (*need, Moment(self.published));
                if need.number() <= have.number() {
                    let world = self.take(alloc)?.print(have.number(), EntryBody::Await)?;
                    Ok((world, Turn::Did))
                } else {
                    Ok((self, Turn::Waiting { need, have }))
                }
            }
            ClientLine::Notices => Ok((self.print_notices(alloc)?, Turn::Did)),
        }
    }

    /// The client takes all that is published.
    fn take(self, alloc: Global) -> Result<World, NoMemory>
        ensures { IfOk result (λ w. w ≡ record { story = self.story; state = record self.state { taken = self.state.published } }) }
    {
        let (client_tree, told) = self.client_tree.patch(self.log)?;
        let mut pending = self.pending;
        pending.extend(told)?;
        Ok(World {
            taken: self.published,
            log: ChangeLog::empty(alloc),
            client_tree,
            pending,
            ..self
        })
    }

    /// The client prints the notices that it took and did not print, for its next line.
    fn print_notices(self, alloc: Global) -> Result<World, NoMemory>
        requires few { length self.story.client ≤ MAX_CLIENT_LINES }
        requires line { self.state.client_done < length self.story.client }
        ensures { IfOk result (λ w. w ≡ record { story = self.story; state = record (printed self.state self.state.taken (NoticesBody (notices_of self.story self.state.noticed self.state.taken))) { noticed = self.state.taken } }) }
    {
        let told = self.pending;
        let moment = self.taken;
        let world = World {
            noticed: moment,
            pending: Notices::new(alloc),
            ..self
        };
        world.print(moment, EntryBody::Notices(told))
    }

    /// What the client's tree answers.
    fn reply(&self, alloc: Global, request: &Request) -> Result<Reply, NoMemory>
        ensures { IfOk result (λ r. r ≡ answer_at self.now.story self.now.state.taken request.now) }
    {
        answer(alloc, &self.client_tree, request)
    }

    /// The client prints an answer from its tree, for its next line.
    fn respond(self, alloc: Global, request: &Request) -> Result<World, NoMemory>
        requires few { length self.story.client ≤ MAX_CLIENT_LINES }
        requires line { self.state.client_done < length self.story.client }
        ensures { IfOk result (λ w. w ≡ record { story = self.story; state = printed self.state self.state.taken (ReplyBody (answer_at self.story self.state.taken request.now)) }) }
    {
        let reply = self.reply(alloc, request)?;
        let moment = self.taken;
        self.print(moment, EntryBody::Reply(reply))
    }

    /// The client prints an entry for its next line.
    fn print(self, moment: u32, body: EntryBody) -> Result<World, NoMemory>
        requires few { length self.story.client ≤ MAX_CLIENT_LINES }
        requires line { self.state.client_done < length self.story.client }
        ensures { IfOk result (λ w. w ≡ record { story = self.story; state = printed self.state moment body }) }
    {
        let done = self.client_done + 1;
        let mut entries = self.entries;
        entries.push(Entry {
            number: done as u32,
            moment: Moment(moment),
            body,
        })?;
        Ok(World {
            client_done: done,
            entries,
            ..self
        })
    }

    /// Whether no side has a line left.
    pub fn is_over(&self, story: &Story) -> bool
        requires { self.now.story ≡ story.now }
        ensures { IsTrue result ↔ IsOver story.now self.now.state }
    {
        self.page_done == story.page().len() && self.client_done == story.client().len()
    }

    /// The entries so far, with the number of flushes of the story. It takes no memory.
    pub fn into_transcript(self) -> Transcript
        ensures entries { result.entries ≡ self.state.entries }
        ensures flushes { result.flushes ≡ flushes self.story.page }
    {
        Transcript {
            entries: self.entries,
            flushes: self.flush_count,
        }
    }
}

/// Plays a story that is not stuck: its turns, and then alternate turns until both sides are done. All its edits are
/// accepted. Its transcript is legal. The only error is want of memory.
pub fn replay(alloc: Global, story: &Story) -> Result<Transcript, NoMemory>
    requires free { stuck story.now ≡ false }
    requires accepted { IsAccepted story.now }
    ensures value { IfOk result (λ t. t ≡ transcript_of story.now) }
    ensures legal { IfOk result (λ t. IsLegalTranscript story.now t) }
{
    playing_ends();
    let mut world = World::new(alloc, story)?;
    for who in story.turns() {
        let (next, _) = world.turn(alloc, story, *who)?;
        world = next;
    }
    Ok(in_rounds(alloc, story, world)?.into_transcript())
}

/// Plays a story that is not stuck in alternate turns, the page first, and without its turn list. Its transcript is legal, as
/// that of every order of turns. All its edits are accepted. The only error is want of memory.
pub fn play_in_turns(alloc: Global, story: &Story) -> Result<Transcript, NoMemory>
    requires free { stuck story.now ≡ false }
    requires accepted { IsAccepted story.now }
    ensures value { IfOk result (λ t. t ≡ transcript_in_turns story.now) }
    ensures legal { IfOk result (λ t. IsLegalTranscript story.now t) }
{
    let world = World::new(alloc, story)?;
    Ok(in_rounds(alloc, story, world)?.into_transcript())
}

/// Plays on in alternate turns, the page first, until both sides are done.
fn in_rounds(alloc: Global, story: &Story, world: World) -> Result<World, NoMemory>
    requires free { stuck story.now ≡ false }
    requires story { world.story ≡ story.now }
    requires state { IsReached story.now world.state }
    ensures story { IfOk result (λ w. w.story ≡ story.now) }
    ensures rounds { IfOk result (λ w. InRounds story.now world.state w.state) }
    ensures over { IfOk result (λ w. IsOver story.now w.state) }
{
    let mut world = world;
    'rounds: while !world.is_over(story) {
        let (after_page, _) = world.turn(alloc, story, Who::Page)?;
        let (after_client, _) = after_page.turn(alloc, story, Who::Client)?;
        world = after_client;
    }
    Ok(world)
}
