//! Reading to the end of input, and writing a whole text.
ghost use Rattle.std.specs.Prelude.{◌≡◌, ◌<◌, ◌≤◌, [], length, vec_len, IfOk, OnOk, OnErr, IsErrOf};
ghost use Rattle.std.specs.Io.KnownBytes.{Appends};
ghost use Rattle.ax_edge.specs.Causes.{Rose, HasCause};
ghost use Rattle.ax_edge.specs.Transfers.{TakesInput, TakesFront, AddsFront};
ghost use Rattle.ax_edge.specs.declared.transfers.ReadError.TheVariants.{NoMemory};

use crate::{Failed, Sink, Source};
use std::alloc::{AllocError, Global};

/// Why there is no input.
#[derive(Clone, Copy, Debug, PartialEq, Eq)]
pub enum ReadError {
    /// A read failed. It comes only where the source's count of faults rose in this call.
    Failed,
    /// There was no memory for the input.
    NoMemory,
}

impl From<AllocError> for ReadError {
    ghost from_gives = { λ _ e. e ≡ NoMemory };

    fn from(_: AllocError) -> ReadError {
        ReadError::NoMemory
    }
}

/// Reads until a read answers 0, or until `most` bytes were read, and answers what was read. What
/// comes after that is left unread.
///
/// Each turn of the reading loop takes at least one byte. It stops at the end of input, at a fault,
/// or at `most` bytes, so a source that gives bytes for ever doesn't hold it.
pub fn read_input<I: Source>(
    alloc: Global,
    source: &mut I,
    most: usize,
) -> Result<Vec<u8>, ReadError>
    ensures input { IfOk result (λ input.
        TakesInput most (I.left source.old) (I.left source.new) input.items) }
    ensures within { IfOk result (λ input. length input.items ≤ most) }
    ensures err { OnErr result (TakesFront most (I.left source.old) (I.left source.new)) }
    ensures later { I.faults source.old ≤ I.faults source.new }
    ensures kept { OnOk result (I.faults source.new ≡ I.faults source.old) }
    ensures failed { IsErrOf result ReadError.Failed →
        Rose (I.faults source.old) (I.faults source.new) }
{
    let mut buf = room_for(alloc, CHUNK)?;
    let mut input = Vec::new(alloc);
    fill(source, &mut buf, &mut input, most)?;
    Ok(input)
}

/// How many bytes one read asks for.
const CHUNK: usize = 65_536;

/// A buffer. Its size is a parameter, so that no proof computes the zeros.
fn room_for(alloc: Global, size: usize) -> Result<Vec<u8>, AllocError>
    ensures { IfOk result (λ buf. vec_len buf ≡ size) }
{
    vec![in alloc; 0u8; size]
}

/// Reads into an empty list. The measure of the loop is how many bytes it may still take: a read
/// that answers 0 ends it, and any other takes at least one.
fn fill<I: Source>(
    source: &mut I,
    buf: &mut [u8],
    input: &mut Vec<u8>,
    most: usize,
) -> Result<(), ReadError>
    requires room { 0 < length buf.old }
    requires empty { input.old.items ≡ [] }
    ensures input { OnOk result (
        TakesInput most (I.left source.old) (I.left source.new) input.new.items) }
    ensures within { OnOk result (length input.new.items ≤ most) }
    ensures err { OnErr result (TakesFront most (I.left source.old) (I.left source.new)) }
    ensures later { I.faults source.old ≤ I.faults source.new }
    ensures kept { OnOk result (I.faults source.new ≡ I.faults source.old) }
    ensures failed { IsErrOf result ReadError.Failed →
        Rose (I.faults source.old) (I.faults source.new) }
{
    'reading: while input.len() < most {
        let room = buf.len().min(most - input.len());
        let count = match source.read(&mut buf[..room]) {
            Ok(count) => count,
            Err(_) => return Err(ReadError::Failed),
        };
        if count == 0 {
            return Ok(());
        }
        input.extend_from_slice(&buf[..count])?;
    }
    Ok(())
}

/// Writes a text, or as much of its front as goes out before the sink fails.
///
/// Each turn of the writing loop adds at least one byte, and its measure is what is left of the text.
pub fn write_whole<O: Sink>(sink: &mut O, text: &[u8]) -> Result<(), Failed>
    ensures ok { OnOk result (Appends (O.gone sink.old) (O.gone sink.new) text.now) }
    ensures err { OnErr result (AddsFront (O.gone sink.old) (O.gone sink.new) text.now) }
    ensures cause { HasCause (O.faults sink.old) (O.faults sink.new) result }
{
    let mut at = 0;
    'writing: while at < text.len() {
        at += sink.write(&text[at..])?;
    }
    Ok(())
}
