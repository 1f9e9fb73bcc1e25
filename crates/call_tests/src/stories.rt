//! What no clause says: that no call reports want of memory while there is enough.
//! Which inputs are refused, and for what, is compared on stories.
use ax_base::ObjId;
use std::test::Fail;
use story_check::{accept, accept_last, base_dom, last_dom};

/// Takes what may be handed to another thread.
fn needs_send<T: Send>(_: &T) {}

#[test]
fn a_story_has_its_documents(rt: HostRuntime) -> Result<(), Fail> {
    let alloc = rt.alloc();
    let text = "{\"insert\":2,\"into\":1,\"tag\":\"p\"}\n{\"start\":1}\n{\"focus\":2}\n";
    let Ok(story) = accept(alloc, text.as_bytes()) else {
        return Err(Fail::from("no story"));
    };
    needs_send(&story);
    needs_send(&story.client());
    let base = base_dom(alloc, &story)?;
    let last = last_dom(alloc, &story)?;
    assert_eq!(rt; base.focus(), None);
    assert_eq!(rt; last.focus(), Some(ObjId(2)));
    Ok(())
}

#[test]
fn the_last_moment_is_told(rt: HostRuntime) -> Result<(), Fail> {
    let text =
        "{\"insert\":2,\"into\":1,\"text\":\"A\"}\n{\"start\":1}\n{\"flush\":true}\n{\"focus\":2}\n{\"hear\":true}\n";
    let last = accept_last(rt.alloc(), text.as_bytes())?;
    assert_eq!(rt; last.flushes, 2);
    assert_eq!(rt; last.client.len(), 1);
    assert_eq!(rt; last.document.focus(), Some(ObjId(2)));
    Ok(())
}
