//! What no clause says: that the calls succeed with ample memory, that the adapters move the bytes,
//! and that a flush comes after each write.
ghost use Rattle.std.specs.Prelude.{◌≡◌, ◌+◌, ◌<◌, ◌^◌};

use crate::{
    Bytes, Failed, Gate, Job, LoneSpawner, MemSink, MemSource, Numbers, OpenGate, ReadError,
    ScopeSpawner, Sink, Source, Spawner, StdSink, StdSource, SureSource, read_input, write_whole,
};
use ax_base::Who;
use std::alloc::Global;
use std::io;
use std::io::{ErrorKind, Read, Write};
use std::sync::Wait;
use std::test::Fail;

/// A writer that takes at most two bytes at a time while it has room, counts its flushes, and fails
/// each flush after the first so many.
#[derive(Drop)]
struct Narrow {
    bytes: Vec<u8>,
    room: usize,
    flushes: usize,
    most_flushes: usize,
}

impl Narrow {
    fn new(alloc: Global, room: usize, most_flushes: usize) -> Narrow {
        Narrow {
            bytes: Vec::new(alloc),
            room,
            flushes: 0,
            most_flushes,
        }
    }
}

impl Write for Narrow {
    fn write(&mut self, buf: &[u8]) -> io::Result<usize> {
        let count = buf.len().min(2).min(self.room);
        self.bytes.extend_from_slice(&buf[..count])?;
        self.room -= count;
        Ok(count)
    }

    fn flush(&mut self) -> io::Result<()> {
        if self.flushes >= self.most_flushes {
            return Err(ErrorKind::Other.into());
        }
        self.flushes += 1;
        Ok(())
    }
}

#[test]
fn std_source_reads_in_pieces(rt: HostRuntime) {
    let text: &[u8] = b"seven!!";
    let mut source = StdSource::new(text);
    let mut buf = [0u8; 4];
    assert_eq!(rt; source.read(&mut buf), Ok(4));
    assert_eq!(rt; &buf[..], &b"seve"[..]);
    assert_eq!(rt; source.read(&mut buf), Ok(3));
    assert_eq!(rt; &buf[..3], &b"n!!"[..]);
    assert_eq!(rt; source.read(&mut buf), Ok(0));
}

/// A reader that fails its first read, and gives three bytes at each read after it.
#[derive(Drop)]
struct Unsteady {
    failed: bool,
}

impl Read for Unsteady {
    fn read(&mut self, buf: &mut [u8]) -> io::Result<usize> {
        if !self.failed {
            self.failed = true;
            return Err(ErrorKind::Other.into());
        }
        Ok(buf.len().min(3))
    }
}

#[test]
fn std_source_tells_a_fault_before_it_reads_on(rt: HostRuntime) {
    let mut source = StdSource::new(Unsteady { failed: false });
    let mut buf = [0u8; 4];
    assert_eq!(rt; source.read(&mut buf), Err(Failed));
    assert_eq!(rt; source.read(&mut buf), Ok(3));
}

#[test]
fn std_sink_flushes_each_write(rt: HostRuntime) {
    let mut writer = Narrow::new(rt.alloc(), 9, 9);
    assert_eq!(rt;
        write_whole(&mut StdSink::new(&mut writer), b"seven"),
        Ok(())
    );
    assert_eq!(rt; writer.bytes.as_slice(), &b"seven"[..]);
    assert_eq!(rt; writer.flushes, 3);
}

#[test]
fn std_sink_fails_where_nothing_is_taken(rt: HostRuntime) {
    let mut writer = Narrow::new(rt.alloc(), 3, 9);
    let mut sink = StdSink::new(&mut writer);
    assert_eq!(rt; sink.write(b""), Ok(0));
    assert_eq!(rt; write_whole(&mut sink, b"seven"), Err(Failed));
    assert_eq!(rt; writer.bytes.as_slice(), &b"sev"[..]);
    assert_eq!(rt; writer.flushes, 3);
}

#[test]
fn std_sink_fails_where_a_flush_fails(rt: HostRuntime) {
    let mut writer = Narrow::new(rt.alloc(), 9, 1);
    assert_eq!(rt;
        write_whole(&mut StdSink::new(&mut writer), b"seven"),
        Err(Failed)
    );
    assert_eq!(rt; writer.bytes.as_slice(), &b"seve"[..]);
}

#[test]
fn lists_keep_what_they_hold(rt: HostRuntime) -> Result<(), Fail> {
    let bytes = Bytes::from_vec(b"seven".to_vec(rt.alloc())?);
    assert_eq!(rt; bytes.as_slice(), &b"seven"[..]);
    assert_eq!(rt; bytes.into_vec().as_slice(), &b"seven"[..]);
    let numbers = Numbers::from_vec([3, 5].to_vec(rt.alloc())?);
    assert!(rt; numbers.contains(5) && !numbers.contains(4));
    assert_eq!(rt; numbers.as_slice(), &[3, 5][..]);
    assert_eq!(rt; numbers.into_vec().as_slice(), &[3, 5][..]);
    Ok(())
}

#[test]
fn mem_source_fails_where_it_is_told(rt: HostRuntime) -> Result<(), Fail> {
    let bytes = Bytes::from_vec(b"seven!!".to_vec(rt.alloc())?);
    let failing = Numbers::from_vec([2].to_vec(rt.alloc())?);
    let mut source = MemSource::new(bytes, 3, failing);
    let fault = read_input(rt.alloc(), &mut source, 9).err();
    assert_eq!(rt; fault, Some(ReadError::Failed));
    let rest = read_input(rt.alloc(), &mut source, 9)?;
    assert_eq!(rt; rest.as_slice(), &b"en!!"[..]);
    Ok(())
}

#[test]
fn reading_stops_at_the_most(rt: HostRuntime) -> Result<(), Fail> {
    let bytes = Bytes::from_vec(b"seven".to_vec(rt.alloc())?);
    let mut source = SureSource::new(bytes, 3);
    let front = read_input(rt.alloc(), &mut source, 4)?;
    assert_eq!(rt; front.as_slice(), &b"seve"[..]);
    let rest = read_input(rt.alloc(), &mut source, 4)?;
    assert_eq!(rt; rest.as_slice(), &b"n"[..]);
    Ok(())
}

#[test]
fn writes_to_its_room(rt: HostRuntime) -> Result<(), Fail> {
    let mut sink = MemSink::new(rt.alloc(), 7)?;
    assert_eq!(rt; write_whole(&mut sink, b"seven"), Ok(()));
    assert_eq!(rt; write_whole(&mut sink, b"seven"), Err(Failed));
    assert_eq!(rt; sink.gone(), &b"sevense"[..]);
    Ok(())
}

/// Doubles a number.
#[derive(Drop)]
struct Doubles(u32);

impl Job for Doubles {
    type Out = u32;

    ghost ready = { λ job. job.0 < 2 ^ 31 };

    ghost gives = { λ job out. out ≡ job.0 + job.0 };

    fn run<R: Wait>(self, _rt: &R) -> u32 {
        self.0 + self.0
    }
}

#[test]
fn scope_spawner_runs_both(rt: HostRuntime) {
    OpenGate.at(Who::Page, 1);
    assert_eq!(rt;
        ScopeSpawner.pair(&rt, Doubles(3), Doubles(4)),
        Some((6, 8))
    );
}

#[test]
fn lone_spawner_runs_neither(rt: HostRuntime) {
    assert_eq!(rt; LoneSpawner.pair(&rt, Doubles(3), Doubles(4)), None);
}
