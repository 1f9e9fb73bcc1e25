//! The lines of a story that are read so far.
ghost use Rattle.std.specs.Prelude.{◌≡◌, ◌<◌, ◌≤◌, ◌+◌, false, ◌++◌, ◌∷◌, [], if◌then◌else◌, map, length, IfOk, OnOk, None};
ghost use Rattle.std.specs.List.{list_all};
ghost use Rattle.std.specs.Option.{option_map};
ghost use Rattle.ax_dom.specs.Bounds.{EditKeepsBounds};
ghost use Rattle.ax_dom.specs.Refusals.{edit_cause};
ghost use Rattle.story_lines.specs.declared.reading.Line.TheVariants.{Change as EditLine, Start as StartLine, Flush as FlushLine, Until as UntilLine, Await as AwaitLine, Turns as TurnsLine};
ghost use Rattle.story_lines.specs.Bounds.{KeepsBounds};
ghost use Rattle.story_lines.specs.Lines.{line_of};
ghost use Rattle.story_check.specs.declared.story.PageLine.TheVariants.{Flush, Until};
ghost use Rattle.story_check.specs.Stories.{flushes};
ghost use Rattle.story_check.specs.Acceptance.{LinesRead, at_first, cause_of, edit_fail, turns_of, story_refusal, is_letter, is_turn_list, side, client_cause, line_cause, with_edit, with_page, with_client, with_await, unless, after_line, await_refusal, Comes, Accepts};
ghost use Rattle.story_check.specs.Holding.{held, held_edit, held_line, told, GoesOn};

use crate::refusals::{input_refusal, refused};
use crate::{
    AcceptFail, Cause, ClientLine, MAX_CLIENT_LINES, MAX_FLUSHES, MAX_TURNS, PageLine, Refusal,
    Story, stuck,
};
use ax_base::{Moment, NoMemory, Text, Who};
use ax_dom::{Dom, Edit, EditCause};
use std::alloc::Global;
use std::marker::Model;
use story_lines::{Line, LineFail, read_line};

/// The lines that are read so far, with or without their edits, and the document after these.
#[derive(Drop)]
pub struct Progress {
    dom: Dom,
    started: bool,
    /// Whether the edits are kept.
    keeps: bool,
    /// Whether an edit of the page stands behind its last flush.
    pending: bool,
    base: Vec<Edit>,
    page: Vec<PageLine>,
    client: Vec<ClientLine>,
    awaits: Vec<(u32, Moment)>,
    turns: Option<Vec<Who>>,
    count: u32,
}

impl Model for Progress {
    ghost use Rattle.std.specs.Prelude.{◌≡◌, ◌≤◌, length};
    ghost use Rattle.std.specs.Option.{option_map};
    ghost use Rattle.story_check.specs.declared.limits.TheConstants.{MAX_CLIENT_LINES, MAX_FLUSHES};
    ghost use Rattle.story_check.specs.Stories.{flushes};
    ghost use Rattle.story_check.specs.Holding.{Progress};

    ghost Value = { Progress };

    ghost view = { λ s. record { keeps = s.keeps; pending = s.pending; lines = record { document = s.dom; started = s.started; base = s.base.items; page = s.page.items; client = s.client.items; awaits = s.awaits.items; turns = option_map (λ v. v.items) s.turns } } };

    ghost invariant = { λ s. (flushes s.page.items ≡ s.count) × (flushes s.page.items ≤ MAX_FLUSHES) × (length s.client.items ≤ MAX_CLIENT_LINES) };
}

/// The cause of the same name, and `None` for want of memory.
fn cause_of(cause: EditCause) -> Option<Cause>
    ensures { result ≡ cause_of cause }
{
    match cause {
        EditCause::NoNode => Some(Cause::NoNode),
        EditCause::UsedId => Some(Cause::UsedId),
        EditCause::BadPlace => Some(Cause::BadPlace),
        EditCause::NotElement => Some(Cause::NotElement),
        EditCause::NotText => Some(Cause::NotText),
        EditCause::IntoItself => Some(Cause::IntoItself),
        EditCause::RootFixed => Some(Cause::RootFixed),
        EditCause::TooDeep => Some(Cause::TooDeep),
        EditCause::TooMany => Some(Cause::TooMany),
        EditCause::BadRuns => Some(Cause::BadRuns),
        EditCause::TooLong => Some(Cause::TooLong),
        EditCause::NoMemory => None,
    }
}

/// How an edit fails on the line with this number.
fn edit_fail(line: u32, cause: EditCause) -> AcceptFail
    ensures { result ≡ edit_fail line cause }
{
    match cause_of(cause) {
        Some(cause) => AcceptFail::Refused(Refusal { line, cause }),
        None => AcceptFail::NoMemory,
    }
}

/// Whether a turn list has nothing but the letters `P` and `C`, and not too many.
fn is_turn_list(text: &Text) -> bool
    ensures { result ≡ is_turn_list text.now }
{
    let letters = text.as_str().as_bytes();
    are_letters(letters) && letters.len() <= MAX_TURNS
}

/// Whether all are the letters `P` and `C`.
fn are_letters(letters: &[u8]) -> bool
    ensures { result ≡ list_all is_letter letters.now }
{
    letters.iter().all(|b| *b == b'P' || *b == b'C')
}

/// The sides that these letters name.
fn sides(alloc: Global, letters: &[u8]) -> Result<Vec<Who>, NoMemory>
    ensures { IfOk result (λ turns. turns.items ≡ map side letters.now) }
{
    let mut turns = Vec::new(alloc);
    for letter in letters {
        turns.push(if *letter == b'P' {
            Who::Page
        } else {
            Who::Client
        })?;
    }
    Ok(turns)
}

/// The first await of a moment past all flushes.
fn await_refusal(flushes: u32, awaits: &[(u32, Moment)]) -> Option<Refusal>
    ensures { result ≡ await_refusal flushes awaits.now }
{
    for (line, wanted) in awaits {
        if wanted.number() > flushes {
            return Some(Refusal {
                line: *line,
                cause: Cause::AwaitTooFar,
            });
        }
    }
    None
}

/// The turns of a list, and none without one.
fn turns_of(alloc: Global, turns: Option<Vec<Who>>) -> Vec<Who>
    ensures { result.items ≡ turns_of (option_map (λ v. v.items) turns) }
{
    match turns {
        Some(turns) => turns,
        None => Vec::new(alloc),
    }
}

/// The lines of a page, with its closing flush where an edit stands behind the last one.
#[tactic(auto, using(crate::proofs::Caps::flushes_with))]
fn closed(mut page: Vec<PageLine>, pending: bool) -> Result<Vec<PageLine>, NoMemory>
    requires { flushes page.items ≤ MAX_FLUSHES }
    ensures lines { IfOk result (λ p. p.items ≡ (if pending then page.items ++ Flush ∷ [] else page.items)) }
    ensures few { IfOk result (λ p. flushes p.items ≤ MAX_FLUSHES + 1) }
{
    if pending {
        page.push(PageLine::Flush)?;
    }
    Ok(page)
}

/// The story of these parts.
fn story_of(base: Vec<Edit>, page: Vec<PageLine>, client: Vec<ClientLine>, turns: Vec<Who>) -> Story
    requires flushes { flushes page.items ≤ MAX_FLUSHES + 1 }
    requires asks { length client.items ≤ MAX_CLIENT_LINES }
    ensures { result ≡ record { base = base.items; page = page.items; client = client.items; turns = turns.items } }
{
    Story::new(base, page, client, turns).unwrap()
}

/// What is refused of a whole story.
fn story_refusal(story: &Story, awaits: &[(u32, Moment)]) -> Option<Refusal>
    ensures { result ≡ story_refusal story.now awaits.now }
{
    if let Some(refusal) = await_refusal(story.flushes(), awaits) {
        return Some(refusal);
    }
    if stuck(story) {
        return Some(Refusal {
            line: 0,
            cause: Cause::Stuck,
        });
    }
    None
}

impl Progress {
    /// Before the first line. It says whether the edits will be kept.
    pub fn new(alloc: Global, keeps: bool) -> Result<Progress, NoMemory>
        ensures { IfOk result (λ progress. progress ≡ held keeps at_first) }
    {
        Ok(Progress {
            dom: Dom::new(alloc)?,
            started: false,
            keeps,
            pending: false,
            base: Vec::new(alloc),
            page: Vec::new(alloc),
            client: Vec::new(alloc),
            awaits: Vec::new(alloc),
            turns: None,
            count: 0,
        })
    }

    /// Reads the line with this number.
    pub fn step(&mut self, alloc: Global, number: u32, line: &str) -> Result<(), AcceptFail>
        ensures { (p : LinesRead) → self.old ≡ held self.old.keeps p → GoesOn result self.old.keeps self.new (after_line number p (line_of line.now)) }
    {
        match read_line(alloc, line) {
            Ok(Some(said)) => self.take(alloc, number, said),
            Ok(None) => Ok(()),
            Err(LineFail::BadJson) => refused(number, Cause::BadJson),
            Err(LineFail::BadLine) => refused(number, Cause::BadLine),
            Err(LineFail::NoMemory) => Err(AcceptFail::NoMemory),
        }
    }

    /// Takes what a line says, or refuses it.
    fn take(&mut self, alloc: Global, number: u32, line: Line) -> Result<(), AcceptFail>
        requires { KeepsBounds line }
        ensures { Comes result self.new (unless number (line_cause self.old.lines line) (held_line number self.old line)) }
    {
        match line {
            Line::Change(edit) => self.change(alloc, number, edit),
            Line::Start => self.start(number),
            Line::Flush => self.flush(number),
            Line::Until(moment) => self.until(number, moment),
            Line::Ask(request) => self.client_line(number, ClientLine::Ask(request)),
            Line::Again(request) => self.client_line(number, ClientLine::Again(request)),
            Line::Hear => self.client_line(number, ClientLine::Hear),
            Line::Await(moment) => self.wait(number, moment),
            Line::Notices => self.client_line(number, ClientLine::Notices),
            Line::Turns(text) => self.turn_list(alloc, number, &text),
        }
    }

    /// Takes an edit.
    fn change(&mut self, alloc: Global, number: u32, edit: Edit) -> Result<(), AcceptFail>
        requires { EditKeepsBounds edit }
        ensures { Comes result self.new (unless number (line_cause self.old.lines (EditLine edit)) (held_line number self.old (EditLine edit))) }
    {
        match self.dom.cause_of(&edit) {
            None => {
                self.accepted(alloc, edit)?;
                Ok(())
            }
            Some(cause) => Err(edit_fail(number, cause)),
        }
    }

    /// Does an edit that nothing refuses. It becomes the document's, and where the edits are kept, a copy of it does.
    fn accepted(&mut self, alloc: Global, edit: Edit) -> Result<(), NoMemory>
        requires free { edit_cause self.old.lines.document edit ≡ None }
        requires within { EditKeepsBounds edit }
        ensures { OnOk result (self.new ≡ held_edit edit self.old) }
    {
        if self.keeps {
            let copy = edit.copy(alloc)?;
            self.dom.apply_accepted(alloc, copy)?;
            self.keep(edit)?;
        } else {
            self.dom.apply_accepted(alloc, edit)?;
        }
        if self.started {
            self.pending = true;
        }
        Ok(())
    }

    /// Adds a flush to the page.
    #[tactic(auto, using(crate::proofs::Caps::flushes_with))]
    fn add_flush(&mut self) -> Result<(), NoMemory>
        requires { flushes self.old.lines.page < MAX_FLUSHES }
        ensures { OnOk result (self.new ≡ record self.old { pending = false; lines = with_page Flush self.old.lines }) }
    {
        self.page.push(PageLine::Flush)?;
        self.count += 1;
        self.pending = false;
        Ok(())
    }

    /// Adds a wait to the page.
    #[tactic(auto, using(crate::proofs::Caps::flushes_with))]
    fn add_until(&mut self, moment: Moment) -> Result<(), NoMemory>
        ensures { OnOk result (self.new ≡ record self.old { lines = with_page (Until moment) self.old.lines }) }
    {
        self.page.push(PageLine::Until(moment))?;
        Ok(())
    }

    /// Adds a line of the client.
    fn add_client(&mut self, line: ClientLine) -> Result<(), NoMemory>
        requires { length self.old.lines.client < MAX_CLIENT_LINES }
        ensures { OnOk result (self.new ≡ record self.old { lines = with_client line self.old.lines }) }
    {
        self.client.push(line)?;
        Ok(())
    }

    /// Keeps the number of a line that awaits a moment.
    fn add_await(&mut self, number: u32, moment: Moment) -> Result<(), NoMemory>
        ensures { OnOk result (self.new ≡ record self.old { lines = with_await number moment self.old.lines }) }
    {
        self.awaits.push((number, moment))?;
        Ok(())
    }

    /// Keeps an edit: before the start as a base edit, after it as a line of the page.
    #[tactic(auto, using(crate::proofs::Caps::flushes_with))]
    fn keep(&mut self, edit: Edit) -> Result<(), NoMemory>
        ensures { OnOk result (self.new ≡ record self.old { lines = with_edit edit self.old.lines }) }
    {
        if self.started {
            self.page.push(PageLine::Change(edit))?;
        } else {
            self.base.push(edit)?;
        }
        Ok(())
    }

    /// Takes a start line.
    fn start(&mut self, number: u32) -> Result<(), AcceptFail>
        ensures { Comes result self.new (unless number (line_cause self.old.lines StartLine) (held_line number self.old StartLine)) }
    {
        if self.started {
            return refused(number, Cause::SecondStart);
        }
        self.started = true;
        Ok(())
    }

    /// Takes a flush line.
    fn flush(&mut self, number: u32) -> Result<(), AcceptFail>
        ensures { Comes result self.new (unless number (line_cause self.old.lines FlushLine) (held_line number self.old FlushLine)) }
    {
        if !self.started {
            return refused(number, Cause::NoStart);
        }
        if self.count >= MAX_FLUSHES {
            return refused(number, Cause::TooManyFlushes);
        }
        self.add_flush()?;
        Ok(())
    }

    /// Takes a wait of the page.
    fn until(&mut self, number: u32, moment: Moment) -> Result<(), AcceptFail>
        ensures { Comes result self.new (unless number (line_cause self.old.lines (UntilLine moment)) (held_line number self.old (UntilLine moment))) }
    {
        if !self.started {
            return refused(number, Cause::NoStart);
        }
        self.add_until(moment)?;
        Ok(())
    }

    /// Takes a line of the client.
    fn client_line(&mut self, number: u32, line: ClientLine) -> Result<(), AcceptFail>
        ensures { Comes result self.new (unless number (client_cause self.old.lines) (record self.old { lines = with_client line self.old.lines })) }
    {
        if !self.started {
            return refused(number, Cause::NoStart);
        }
        if self.client.len() >= MAX_CLIENT_LINES {
            return refused(number, Cause::TooManyAsks);
        }
        self.add_client(line)?;
        Ok(())
    }

    /// Takes a wait of the client, and keeps its number.
    fn wait(&mut self, number: u32, moment: Moment) -> Result<(), AcceptFail>
        ensures { Comes result self.new (unless number (line_cause self.old.lines (AwaitLine moment)) (held_line number self.old (AwaitLine moment))) }
    {
        self.client_line(number, ClientLine::Await(moment))?;
        self.add_await(number, moment)?;
        Ok(())
    }

    /// Takes a turn list.
    fn turn_list(&mut self, alloc: Global, number: u32, text: &Text) -> Result<(), AcceptFail>
        ensures { Comes result self.new (unless number (line_cause self.old.lines (TurnsLine text.now)) (held_line number self.old (TurnsLine text.now))) }
    {
        if !self.started {
            return refused(number, Cause::NoStart);
        }
        if self.turns.is_some() || !is_turn_list(text) {
            return refused(number, Cause::BadTurns);
        }
        self.turns = Some(sides(alloc, text.as_str().as_bytes())?);
        Ok(())
    }

    /// The story of all lines, with or without its edits, and the document after these, or what is refused at their end.
    pub fn finish(self, alloc: Global) -> Result<(Story, Dom), AcceptFail>
        ensures { Accepts result (told self) }
    {
        if !self.started {
            return Err(input_refusal(Cause::NoStart));
        }
        let Progress {
            dom,
            pending,
            base,
            page,
            client,
            awaits,
            turns,
            ..
        } = self;
        let page = closed(page, pending)?;
        let story = story_of(base, page, client, turns_of(alloc, turns));
        match story_refusal(&story, &awaits) {
            None => Ok((story, dom)),
            Some(refusal) => Err(AcceptFail::Refused(refusal)),
        }
    }
}
