//! The top call: from words and bytes to a status and bytes.
ghost use Rattle.std.specs.Prelude.{◌≡◌, ◌↔◌, ◌≤◌, None, Some, IfOk, IfErr, OnOk, IsErrOf};
ghost use Rattle.ax_edge.specs.Causes.{Rose};
ghost use Rattle.ax_session.specs.declared.words.Command.TheVariants.{Dump, Replay, Run, Gen};
ghost use Rattle.story_check.specs.declared.refusals.Refusal.{Refusal};
ghost use Rattle.ax_session.specs.Command.{command_of, HasCount};
ghost use Rattle.ax_session.specs.Refusals.{refusal_text};
ghost use Rattle.story_check.specs.Acceptance.{judged, AcceptFails};
ghost use Rattle.ax_session.specs.TopCall.{Does, IsReader, TakesFor, MayAnswer, StatusMeans, IsComplete, LeavesSource, LeavesSpawner};
ghost use Rattle.story_gen.specs.Generated.{generated};

use crate::play_text::replay_text;
use crate::refusals::refusal_line;
use crate::summary::summary_text;
use crate::threads::run_threads;
use crate::tree_text::document_text;
use crate::{Command, Status, command_of};
use ax_ask::print_transcript;
use ax_base::{NoMemory, Text};
use ax_edge::{Gate, ReadError, Sink, Source, Spawner, read_input, write_whole};
use ax_world::playing_ends;
use std::alloc::Global;
use std::sync::Wait;
use std::thread::Threads;
use story_check::{AcceptFail, accept, accept_last};
use story_gen::generate;

/// Does the command that the words name: reads its input to the end, does the work, and writes the whole text.
///
/// Steps go in this order: words, reading, acceptance, the work, writing. The text is built whole before the first write.
/// `gate` is called before each turn of a worker, and `spawner` says whether the two sides get threads of their own. `run`
/// waits for its other thread, so what is promised of it is promised if the call returns; every other command returns.
pub fn axcore<R: Threads + Wait + Sync, I: Source, O: Sink, G: Gate + Sync, S: Spawner>(
    rt: &R,
    alloc: Global,
    words: &[String],
    source: &mut I,
    sink: &mut O,
    gate: &G,
    spawner: &mut S,
) -> Status
    ensures words { (result ≡ Status.Words) ↔ (command_of words.now ≡ None) }
    ensures means { StatusMeans I.left I.faults O.gone O.faults words.now source.old source.new sink.old sink.new result }
    ensures complete { IsComplete words.now (I.left source.old) (I.faults source.old) (I.faults source.new)
        (O.faults sink.old) (O.faults sink.new) result }
    ensures source { LeavesSource (command_of words.now) source.old source.new }
    ensures spawner { LeavesSpawner (command_of words.now) spawner.old spawner.new }
{
    let Some(command) = command_of(words) else {
        return Status::Words;
    };
    let input = match input_of(alloc, command, source) {
        Ok(input) => input,
        Err(ReadError::Failed) => return Status::ReadFault,
        Err(ReadError::NoMemory) => return Status::NoMemory,
    };
    let answer = match reply_to(rt, alloc, command, &input, gate, spawner) {
        Ok(answer) => answer,
        Err(NoMemory) => return Status::NoMemory,
    };
    match write_whole(sink, answer.text.as_str().as_bytes()) {
        Ok(()) => answer.status,
        Err(_) => Status::WriteFault,
    }
}

/// Does every command that waits for nobody, and returns. It is not for `run`.
pub fn still_command<I: Source, O: Sink>(
    alloc: Global,
    words: &[String],
    source: &mut I,
    sink: &mut O,
) -> Status
    requires still { command_of words.now ≡ Some Run → ⊥ }
    ensures words { (result ≡ Status.Words) ↔ (command_of words.now ≡ None) }
    ensures means { StatusMeans I.left I.faults O.gone O.faults words.now source.old source.new sink.old sink.new result }
    ensures complete { IsComplete words.now (I.left source.old) (I.faults source.old) (I.faults source.new)
        (O.faults sink.old) (O.faults sink.new) result }
    ensures source { LeavesSource (command_of words.now) source.old source.new }
{
    let Some(command) = command_of(words) else {
        return Status::Words;
    };
    let input = match input_of(alloc, command, source) {
        Ok(input) => input,
        Err(ReadError::Failed) => return Status::ReadFault,
        Err(ReadError::NoMemory) => return Status::NoMemory,
    };
    let reply = match still_reply(alloc, command, &input) {
        Ok(reply) => reply,
        Err(NoMemory) => return Status::NoMemory,
    };
    match write_whole(sink, reply.text.as_str().as_bytes()) {
        Ok(()) => reply.status,
        Err(_) => Status::WriteFault,
    }
}

/// One more byte than a story may have: then it is known to be too long.
const MOST_READ: usize = 16_777_217;

/// The input of a command. That of `gen` is made, and the source is left alone.
fn input_of<I: Source>(
    alloc: Global,
    command: Command,
    source: &mut I,
) -> Result<Vec<u8>, ReadError>
    requires { HasCount command }
    ensures input { IfOk result (λ input. TakesFor command (I.left source.old) (I.left source.new) input.items) }
    ensures kept { OnOk result (I.faults source.new ≡ I.faults source.old) }
    ensures failed { IsErrOf result ReadError.Failed → IsReader command × Rose (I.faults source.old) (I.faults source.new) }
    ensures source { LeavesSource (Some command) source.old source.new }
{
    match command {
        Command::Dump => read_input(alloc, source, MOST_READ),
        Command::Replay => read_input(alloc, source, MOST_READ),
        Command::Run => read_input(alloc, source, MOST_READ),
        Command::Gen(count) => match generated_input(alloc, count) {
            Ok(input) => Ok(input),
            Err(NoMemory) => Err(ReadError::NoMemory),
        },
    }
}

/// The story of so many items, as the bytes of an input.
fn generated_input(alloc: Global, count: u16) -> Result<Vec<u8>, NoMemory>
    requires some { 1 ≤ count }
    requires most { count ≤ 1000 }
    ensures { IfOk result (λ input. input.items ≡ generated count) }
{
    let text = generate(alloc, count)?;
    Ok(text.into_string().into_bytes())
}

/// What a command answers to its input, before it is written.
#[derive(Drop)]
struct Reply {
    status: Status,
    text: Text,
}

/// The reply to any command. It waits where the command does.
fn reply_to<R: Threads + Wait + Sync, G: Gate + Sync, S: Spawner>(
    rt: &R,
    alloc: Global,
    command: Command,
    input: &[u8],
    gate: &G,
    spawner: &mut S,
) -> Result<Reply, NoMemory>
    ensures reply { IfOk result (λ reply. MayAnswer command input.now reply.status reply.text) }
    ensures spawner { LeavesSpawner (Some command) spawner.old spawner.new }
{
    match command {
        Command::Dump => still_reply(alloc, command, input),
        Command::Replay => still_reply(alloc, command, input),
        Command::Gen(_) => still_reply(alloc, command, input),
        Command::Run => match run_input(rt, alloc, input, gate, spawner) {
            Ok(text) => Ok(done(text)),
            Err(fail) => refused(alloc, fail),
        },
    }
}

/// The reply to a command that waits for nobody.
fn still_reply(alloc: Global, command: Command, input: &[u8]) -> Result<Reply, NoMemory>
    requires still { command ≡ Run → ⊥ }
    ensures { IfOk result (λ reply. MayAnswer command input.now reply.status reply.text) }
{
    let told = match command {
        Command::Dump => dump_input(alloc, input),
        Command::Replay => replay_input(alloc, input),
        Command::Gen(count) => gen_input(alloc, input, count),
        Command::Run => unreachable!(),
    };
    match told {
        Ok(text) => Ok(done(text)),
        Err(fail) => refused(alloc, fail),
    }
}

/// The reply that a command was done, and wrote this.
fn done(text: Text) -> Reply
    ensures { result ≡ record { status = Status.Done; text = text } }
{
    Reply {
        status: Status::Done,
        text,
    }
}

/// The reply to an input that is refused.
fn refused(alloc: Global, fail: AcceptFail) -> Result<Reply, NoMemory>
    ensures { IfOk result (λ reply. (reply.status ≡ Status.Refused) × ((refusal : Refusal) × (fail ≡ AcceptFail.Refused refusal) × (reply.text ≡ refusal_text refusal))) }
{
    match fail {
        AcceptFail::Refused(refusal) => Ok(Reply {
            status: Status::Refused,
            text: refusal_line(alloc, refusal)?,
        }),
        AcceptFail::NoMemory => Err(NoMemory),
    }
}

/// What `dump` writes of its input. No edit of the story is kept.
fn dump_input(alloc: Global, input: &[u8]) -> Result<Text, AcceptFail>
    ensures done { IfOk result (λ text. Does Dump input.now text) }
    ensures refused { IfErr result (λ fail. AcceptFails fail (judged input.now)) }
{
    let last = accept_last(alloc, input)?;
    let text = document_text(alloc, &last.document, last.flushes)?;
    Ok(text)
}

/// What `replay` writes of its input. What is played is legal.
fn replay_input(alloc: Global, input: &[u8]) -> Result<Text, AcceptFail>
    ensures done { IfOk result (λ text. Does Replay input.now text) }
    ensures refused { IfErr result (λ fail. AcceptFails fail (judged input.now)) }
{
    let story = accept(alloc, input)?;
    playing_ends();
    let text = replay_text(alloc, &story)?;
    Ok(text)
}

/// What `gen` writes of its input, the generated story of so many items. What is played is legal.
fn gen_input(alloc: Global, input: &[u8], count: u16) -> Result<Text, AcceptFail>
    ensures done { IfOk result (λ text. Does (Gen count) input.now text) }
    ensures refused { IfErr result (λ fail. AcceptFails fail (judged input.now)) }
{
    let _count = count;
    let story = accept(alloc, input)?;
    playing_ends();
    let text = summary_text(alloc, &story)?;
    Ok(text)
}

/// What `run` writes of its input: the text of one legal transcript.
fn run_input<R: Threads + Wait + Sync, G: Gate + Sync, S: Spawner>(
    rt: &R,
    alloc: Global,
    input: &[u8],
    gate: &G,
    spawner: &mut S,
) -> Result<Text, AcceptFail>
    ensures done { IfOk result (λ text. Does Run input.now text) }
    ensures refused { IfErr result (λ fail. AcceptFails fail (judged input.now)) }
{
    let story = accept(alloc, input)?;
    let transcript = run_threads(rt, alloc, &story, gate, spawner)?;
    let text = print_transcript(alloc, &transcript)?;
    Ok(text)
}
