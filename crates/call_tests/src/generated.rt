//! What no clause says: that no call reports want of memory while there is enough.
use std::test::Fail;
use story_gen::generate;

const ONE_ITEM: &str =
    "{\"insert\":2,\"into\":1,\"tag\":\"ul\"}\n{\"insert\":3,\"into\":2,\"tag\":\"li\"}\n{\"insert\":4,\"into\":3,\"tag\":\"button\"}\n{\"insert\":5,\"into\":4,\"text\":\"Item 1\"}\n{\"start\":1}\n{\"set\":4,\"name\":\"aria-label\",\"value\":\"Item 1 of 1\"}\n{\"ask\":{\"q\":\"name\",\"id\":4}}\n{\"await\":1}\n{\"notices\":true}\n";

#[test]
fn a_story_is_generated(rt: HostRuntime) -> Result<(), Fail> {
    let text = generate(rt.alloc(), 1).ok().ok_or("no memory")?;
    assert!(rt; text.is(ONE_ITEM));
    Ok(())
}
