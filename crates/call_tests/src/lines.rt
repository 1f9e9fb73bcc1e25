//! What no clause says: that no call reports want of memory while there is enough.
//! Which lines are read, and as what, is compared on stories.
use std::alloc::Global;
use story_lines::read_line;

/// Whether a line is read as one that says something.
fn is_read(alloc: Global, line: &str) -> bool {
    matches!(read_line(alloc, line), Ok(Some(_)))
}

#[test]
fn an_insert_is_read(rt: HostRuntime) {
    let line = "{\"insert\":2,\"into\":1,\"tag\":\"p\",\"attrs\":{\"id\":\"a\"}}";
    assert!(rt; is_read(rt.alloc(), line));
}

#[test]
fn a_search_is_read(rt: HostRuntime) {
    let line =
        "{\"ask\":{\"q\":\"search\",\"from\":0,\"dir\":\"next\",\"keys\":[\"any\"],\"text\":\"tea\",\"limit\":1}}";
    assert!(rt; is_read(rt.alloc(), line));
}
