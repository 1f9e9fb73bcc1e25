//! Runs on two threads: one whose sides wait for each other, and some whose sides come late.
use ax_base::Who;
use ax_edge::{Bytes, Gate, MemSink, ScopeSpawner, SureSource};
use ax_session::{Status, axcore};
use std::alloc::Global;
use std::sync::Wait;
use std::sync::atomic::{AtomicU64, Ordering};
use std::test::Fail;
use std::thread;
use std::thread::Threads;

const STORY: &str =
    "{\"insert\":2,\"into\":1,\"tag\":\"button\"}\n{\"insert\":3,\"into\":2,\"text\":\"Save\"}\n{\"start\":1}\n{\"text\":3,\"to\":\"B\"}\n{\"flush\":true}\n{\"text\":3,\"to\":\"C\"}\n{\"flush\":true}\n{\"text\":3,\"to\":\"D\"}\n{\"flush\":true}\n{\"ask\":{\"q\":\"name\",\"id\":2}}\n{\"again\":{\"q\":\"name\",\"id\":2}}\n";

const TOLD: &str = "#1 @2 name \"C\"\n#2 @2 name \"C\"\nend 3\n";

/// Lets the client's first turn begin after two flushes, and the page's fifth turn after the client's first is done.
#[derive(Drop)]
struct Meeting {
    /// The page's turn.
    page: AtomicU64,
    /// The client's turn.
    client: AtomicU64,
    /// How many waits were given up.
    missed: AtomicU64,
}

impl Meeting {
    /// Polls until a side has come to a turn, and gives up after 2,000,000 looks.
    fn meet(&self, side: &AtomicU64, turn: u64) {
        for _ in 0..2_000_000 {
            if side.load(Ordering::SeqCst) >= turn {
                return;
            }
            thread::yield_now();
        }
        self.missed.store(1, Ordering::SeqCst);
    }
}

impl Gate for Meeting {
    fn at(&self, who: Who, turn: u32) {
        match who {
            Who::Page => {
                self.page.store(u64::from(turn), Ordering::SeqCst);
                if turn == 5 {
                    self.meet(&self.client, 2);
                }
            }
            Who::Client => {
                self.client.store(u64::from(turn), Ordering::SeqCst);
                if turn == 1 {
                    self.meet(&self.page, 5);
                }
            }
        }
    }
}

/// Runs a story on two threads, and answers the status and the sink.
fn run_story<R: Threads + Wait + Sync, G: Gate + Sync>(
    rt: &R,
    alloc: Global,
    story: &str,
    gate: &G,
) -> Result<(Status, MemSink), Fail> {
    let mut words = Vec::new(alloc);
    words.push(String::from_str(alloc, "run")?)?;
    let bytes = Vec::from_slice(alloc, story.as_bytes())?;
    let mut source = SureSource::new(Bytes::from_vec(bytes), 64);
    let mut sink = MemSink::new(alloc, 1000).ok().ok_or("no memory")?;
    let status = axcore(
        rt,
        alloc,
        &words,
        &mut source,
        &mut sink,
        gate,
        &mut ScopeSpawner,
    );
    Ok((status, sink))
}

#[test]
fn both_sides_meet(rt: HostRuntime) -> Result<(), Fail> {
    let gate = Meeting {
        page: AtomicU64::new(0),
        client: AtomicU64::new(0),
        missed: AtomicU64::new(0),
    };
    let (status, sink) = run_story(&rt, rt.alloc(), STORY, &gate)?;
    assert_eq!(rt; status, Status::Done);
    assert_eq!(rt; sink.gone(), TOLD.as_bytes());
    assert_eq!(rt; gate.missed.load(Ordering::SeqCst), 0);
    assert!(rt; gate.page.load(Ordering::SeqCst) == 6 && gate.client.load(Ordering::SeqCst) == 2);
    Ok(())
}

/// A story whose sides wait for each other at each moment, so that one transcript alone is legal.
const WAITS: &str =
    "{\"insert\":2,\"into\":1,\"tag\":\"button\"}\n{\"insert\":3,\"into\":2,\"text\":\"Save\"}\n{\"start\":1}\n{\"text\":3,\"to\":\"B\"}\n{\"flush\":true}\n{\"until\":1}\n{\"text\":3,\"to\":\"C\"}\n{\"flush\":true}\n{\"until\":2}\n{\"focus\":2}\n{\"flush\":true}\n{\"await\":1}\n{\"again\":{\"q\":\"name\",\"id\":2}}\n{\"await\":2}\n{\"again\":{\"q\":\"role\",\"id\":9}}\n{\"await\":3}\n{\"notices\":true}\n";

/// Comes late by so many yields at each turn as a pattern says that a seed begins.
#[derive(Drop)]
struct Delays {
    seed: u64,
}

impl Delays {
    /// Up to 1,023 yields.
    fn pause(&self, who: Who, turn: u32) -> u64 {
        let side = match who {
            Who::Page => 0,
            Who::Client => 1,
        };
        let turn = u64::from(turn).wrapping_mul(2).wrapping_add(side);
        self.seed
            .wrapping_mul(0x9E37_79B9_7F4A_7C15)
            .wrapping_add(turn)
            .wrapping_mul(0xBF58_476D_1CE4_E5B9)
            >> 54
    }
}

impl Gate for Delays {
    fn at(&self, who: Who, turn: u32) {
        for _ in 0..self.pause(who, turn) {
            thread::yield_now();
        }
    }
}

const WAITS_TOLD: &str =
    "#1 @1 await\n#2 @1 name \"B\"\n#3 @2 await\n#4 @2 stale\n#5 @3 await\n#6 @3 notices 3\n! 1 name 2\n! 2 name 2\n! 3 focus 2\nend 3\n";

/// Whether the story that waits is told as it must be, where the sides come late by this seed.
fn tells_the_same<R: Threads + Wait + Sync>(
    rt: &R,
    alloc: Global,
    seed: u64,
) -> Result<bool, Fail> {
    let (status, sink) = run_story(rt, alloc, WAITS, &Delays { seed })?;
    Ok(status == Status::Done && sink.gone() == WAITS_TOLD.as_bytes())
}

#[test]
fn delays_change_nothing_that_is_told(rt: HostRuntime) -> Result<(), Fail> {
    assert!(rt; tells_the_same(&rt, rt.alloc(), 1)?);
    assert!(rt; tells_the_same(&rt, rt.alloc(), 2)?);
    assert!(rt; tells_the_same(&rt, rt.alloc(), 3)?);
    assert!(rt; tells_the_same(&rt, rt.alloc(), 4)?);
    Ok(())
}
