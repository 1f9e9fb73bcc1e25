//! What no clause says: that no call reports want of memory while there is enough, and how replies read that no story has yet. The others are
//! compared on stories.
use ax_ask::{
    Entries, Entry, EntryBody, Marker, Placing, Reply, SearchKey, SearchKeys, Transcript,
    print_reply, print_transcript,
};
use ax_base::{Ids, Moment, NoMemory, Notice, NoticeKind, Notices, ObjId, Rect, Text};
use std::alloc::Global;
use std::test::Fail;

/// The texts of some replies, each with a line feed.
fn printed(alloc: Global, replies: &[Reply]) -> Result<Text, NoMemory> {
    let mut all = Text::new(alloc);
    for reply in replies {
        let text = print_reply(alloc, reply)?;
        all.push_str(text.as_str())?;
        all.push_str("\n")?;
    }
    Ok(all)
}

#[test]
fn replies_of_searches_and_hits(rt: HostRuntime) -> Result<(), Fail> {
    let alloc = rt.alloc();
    let found = Ids::from_vec([ObjId(2), ObjId(4)].to_vec(alloc)?);
    let replies = [
        Reply::Out,
        Reply::Long,
        Reply::Found(found),
        Reply::Hit(ObjId(5)),
    ];
    let text = printed(alloc, &replies)?;
    assert_eq!(rt; text.as_str(), "out\nlong\nfound 2 4\nhit 5\n");
    Ok(())
}

#[test]
fn replies_about_markers(rt: HostRuntime) -> Result<(), Fail> {
    let alloc = rt.alloc();
    let end = Marker {
        id: ObjId(3),
        offset: 4294967295,
    };
    let rect = Rect {
        x: -1,
        y: 0,
        w: 20,
        h: 20,
    };
    let replies = [
        Reply::Order(Placing::Before),
        Reply::Mark(end),
        Reply::Span(end, end),
        Reply::Words(Text::from_str(alloc, "ab\ncd")?),
        Reply::Bounds(rect),
    ];
    let text = printed(alloc, &replies)?;
    assert_eq!(rt;
        text.as_str(),
        "before\nmarker 3 4294967295\nrange 3 4294967295 3 4294967295\ntext \"ab\\ncd\"\nbounds -1 0 20 20\n"
    );
    Ok(())
}

/// The focus goes to an object, and then away.
fn notices(alloc: Global) -> Result<Notices, NoMemory> {
    let mut notices = Notices::new(alloc);
    notices.push(Notice {
        moment: Moment(1),
        kind: NoticeKind::Focus,
        id: Some(ObjId(8)),
    })?;
    notices.push(Notice {
        moment: Moment(2),
        kind: NoticeKind::Focus,
        id: None,
    })?;
    Ok(notices)
}

#[test]
fn a_transcript_with_notices(rt: HostRuntime) -> Result<(), Fail> {
    let alloc = rt.alloc();
    let mut entries = Entries::new(alloc);
    entries.push(Entry {
        number: 1,
        moment: Moment(2),
        body: EntryBody::Notices(notices(alloc)?),
    })?;
    let transcript = Transcript {
        entries,
        flushes: 2,
    };
    let text = print_transcript(alloc, &transcript)?;
    assert_eq!(rt;
        text.as_str(),
        "#1 @2 notices 2\n! 1 focus 8\n! 2 focus 0\nend 2\n"
    );
    Ok(())
}

#[test]
fn a_search_keeps_its_keys(rt: HostRuntime) -> Result<(), Fail> {
    let mut keys = SearchKeys::new(rt.alloc());
    keys.push(SearchKey::Heading)?;
    keys.push(SearchKey::Link)?;
    assert_eq!(rt; keys.as_slice(), &[SearchKey::Heading, SearchKey::Link][..]);
    Ok(())
}
