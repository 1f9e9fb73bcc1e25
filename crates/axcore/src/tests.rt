//! What no clause says: that no call reports want of memory while there is enough.
//! What is written for each story, and the status, is compared on
//! the program itself.
use ax_edge::{Bytes, LoneSpawner, MemSink, OpenGate, SureSource};
use ax_session::{Status, axcore};
use std::alloc::Global;
use std::sync::Wait;
use std::test::Fail;
use std::thread::Threads;

/// Whether a command ends as done and writes this text, where its input comes in pieces of seven bytes.
fn writes<R: Threads + Wait + Sync>(
    rt: &R,
    alloc: Global,
    command: &str,
    story: &str,
    text: &str,
) -> Result<bool, Fail> {
    let mut words = Vec::new(alloc);
    words.push(String::from_str(alloc, command)?)?;
    let bytes = Vec::from_slice(alloc, story.as_bytes())?;
    let mut source = SureSource::new(Bytes::from_vec(bytes), 7);
    let mut sink = MemSink::new(alloc, 100).ok().ok_or("no memory")?;
    let status = axcore(
        rt,
        alloc,
        &words,
        &mut source,
        &mut sink,
        &OpenGate,
        &mut LoneSpawner,
    );
    Ok(status == Status::Done && sink.gone() == text.as_bytes())
}

#[test]
fn dump_writes_the_last_tree(rt: HostRuntime) -> Result<(), Fail> {
    let story =
        "{\"insert\":2,\"into\":1,\"tag\":\"button\",\"attrs\":{\"aria-label\":\"Save\"}}\n{\"start\":1}\n";
    let text = "1 0 document \"\"\n2 1 button \"Save\"\nend 0\n";
    assert!(rt; writes(&rt, rt.alloc(), "dump", story, text)?);
    Ok(())
}

#[test]
fn replay_tells_what_the_client_heard(rt: HostRuntime) -> Result<(), Fail> {
    let story =
        "{\"start\":1}\n{\"flush\":true}\n{\"hear\":true}\n{\"await\":1}\n{\"ask\":{\"q\":\"root\"}}\n";
    let text = "#1 @1 hear\n#2 @1 await\n#3 @1 root 1\nend 1\n";
    assert!(rt; writes(&rt, rt.alloc(), "replay", story, text)?);
    Ok(())
}
