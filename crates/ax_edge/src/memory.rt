//! Sources and sinks in memory.
ghost use Rattle.std.specs.Prelude.{◌≡◌, ◌<◌, ◌≤◌, ◌+◌, ◌-◌, ◌↔◌, [], Some, min, length, take, drop, IsErr, IsOk, Contains, IfOk};
ghost use Rattle.std.specs.Io.{ReadsAtMost, WritesAtMost};
ghost use Rattle.std.specs.Io.KnownBytes.{ReadConsumes, WriteAppends};
ghost use Rattle.ax_edge.specs.Causes.{HasCause, CountsFault, TakesSome, one_more};
ghost use Rattle.ax_edge.specs.Memory.{given_count, TakesPiece};

use crate::{Bytes, Failed, Numbers, Sink, Source};
use ax_base::NoMemory;
use std::alloc::Global;
use std::marker::Model;

/// Copies the front of `rest` to the front of `buf`, and says how many bytes.
fn give(rest: &[u8], piece: usize, buf: &mut [u8]) -> usize
    ensures count { result ≡ given_count rest.now piece buf.new }
    ensures bytes { take result buf.new ≡ take result rest.now }
    ensures none { result ≡ 0 → 0 < piece → 0 < length buf.new → rest.now ≡ [] }
{
    let count = rest.len().min(piece).min(buf.len());
    buf[..count].copy_from_slice(&rest[..count]);
    count
}

/// Gives bytes in pieces, and never fails.
#[derive(Drop)]
pub struct SureSource {
    bytes: Bytes,
    at: usize,
    piece: usize,
}

impl Model for SureSource {
    ghost use Rattle.std.specs.Prelude.{◌≤◌, drop, length};
    ghost use Rattle.ax_edge.specs.Memory.{Stream};

    ghost Value = { Stream };

    ghost view = { λ s. record { left = drop s.at s.bytes; piece = s.piece } };

    ghost invariant = { λ s. (s.at ≤ length s.bytes) × (1 ≤ s.piece) };
}

impl SureSource {
    /// Gives these bytes, at most `piece` of them in one read.
    pub fn new(bytes: Bytes, piece: usize) -> SureSource
        requires { 1 ≤ piece }
        ensures { result ≡ record { left = bytes; piece = piece } }
    {
        SureSource {
            bytes,
            at: 0,
            piece,
        }
    }
}

impl Source for SureSource {
    ghost left = { λ s. Some s.left };

    ghost faults = { λ _. 0 };

    fn read(&mut self, buf: &mut [u8]) -> Result<usize, Failed>
        ensures bound { ReadsAtMost result buf.new }
        ensures bytes { ReadConsumes (Some self.old.left) (Some self.new.left) result buf.new }
        ensures cause { HasCause 0 0 result }
        ensures sure { IsOk result }
        ensures count { IfOk result (λ n. n ≡ given_count self.old.left self.old.piece buf.new) }
        ensures same { self.new.piece ≡ self.old.piece }
    {
        let count = give(&self.bytes.as_slice()[self.at..], self.piece, buf);
        self.at += count;
        Ok(count)
    }
}

/// Gives bytes in pieces, and fails at the reads that it is told to fail at.
#[derive(Drop)]
pub struct MemSource {
    source: SureSource,
    failing: Numbers,
    reads: u64,
    faults: u64,
}

impl Model for MemSource {
    ghost use Rattle.ax_edge.specs.Memory.{Feed};

    ghost Value = { Feed };

    ghost view = { λ s. record {
      left = s.source.left;
      piece = s.source.piece;
      failing = s.failing;
      reads = s.reads;
      faults = s.faults;
    } };
}

impl MemSource {
    /// Gives these bytes, at most `piece` of them in one read. The reads whose numbers, counted from
    /// 1, are in `failing` fail.
    pub fn new(bytes: Bytes, piece: usize, failing: Numbers) -> MemSource
        requires { 1 ≤ piece }
        ensures { result ≡ record {
          left = bytes;
          piece = piece;
          failing = failing;
          reads = 0;
          faults = 0;
        } }
    {
        MemSource {
            source: SureSource::new(bytes, piece),
            failing,
            reads: 0,
            faults: 0,
        }
    }
}

impl Source for MemSource {
    ghost left = { λ s. Some s.left };

    ghost faults = { λ s. s.faults };

    fn read(&mut self, buf: &mut [u8]) -> Result<usize, Failed>
        ensures bound { ReadsAtMost result buf.new }
        ensures bytes { ReadConsumes (Some self.old.left) (Some self.new.left) result buf.new }
        ensures cause { HasCause self.old.faults self.new.faults result }
        ensures exact { IsErr result ↔ Contains self.old.failing self.new.reads }
        ensures count { IfOk result (λ n. n ≡ given_count self.old.left self.old.piece buf.new) }
        ensures reads { self.new.reads ≡ one_more self.old.reads }
        ensures faults { CountsFault self.old.faults self.new.faults result }
        ensures piece { self.new.piece ≡ self.old.piece }
        ensures failing { self.new.failing ≡ self.old.failing }
    {
        self.reads = self.reads.saturating_add(1);
        if self.failing.contains(self.reads) {
            self.faults = self.faults.saturating_add(1);
            return Err(Failed);
        }
        self.source.read(buf)
    }
}

/// Takes bytes while there is room.
#[derive(Drop)]
pub struct MemSink {
    gone: Vec<u8>,
    room: usize,
    faults: u64,
}

impl Model for MemSink {
    ghost use Rattle.std.specs.Prelude.{◌≤◌, ◌+◌, vec_len, vec_capacity};
    ghost use Rattle.ax_edge.specs.Memory.{Tray};

    ghost Value = { Tray };

    ghost view = { λ s. record { gone = s.gone.items; room = s.room; faults = s.faults } };

    ghost invariant = { λ s. vec_len s.gone + s.room ≤ vec_capacity s.gone };
}

impl MemSink {
    /// Takes the memory for `room` bytes at once, so that no write takes any.
    pub fn new(alloc: Global, room: usize) -> Result<MemSink, NoMemory>
        ensures { IfOk result (λ s. s ≡ record { gone = []; room = room; faults = 0 }) }
    {
        let gone = Vec::with_capacity(alloc, room)?;
        Ok(MemSink {
            gone,
            room,
            faults: 0,
        })
    }

    /// What went out.
    pub fn gone(&self) -> &[u8]
        ensures { result.now ≡ self.now.gone }
    {
        self.gone.as_slice()
    }
}

impl Sink for MemSink {
    ghost gone = { λ s. Some s.gone };

    ghost faults = { λ s. s.faults };

    fn write(&mut self, piece: &[u8]) -> Result<usize, Failed>
        ensures bound { WritesAtMost result piece.now }
        ensures some { TakesSome result piece.now }
        ensures bytes { WriteAppends (Some self.old.gone) (Some self.new.gone) result piece.now }
        ensures cause { HasCause self.old.faults self.new.faults result }
        ensures full { IsErr result ↔ (self.old.room ≡ 0) }
        ensures takes { TakesPiece self.old self.new result piece.now }
    {
        if self.room == 0 {
            self.faults = self.faults.saturating_add(1);
            return Err(Failed);
        }
        let count = piece.len().min(self.room);
        self.gone.extend_from_slice(&piece[..count]).unwrap();
        self.room -= count;
        Ok(count)
    }
}
