//! Each question once. The table's rows are compared on stories.
use ax_base::{Attrs, Role, Text};
use ax_roles::{
    focusable_of, hides, is_ignored, name_prohibited, names_from_content, prunes, role_of,
};
use std::test::Fail;

#[test]
fn an_element_has_a_role(rt: HostRuntime) -> Result<(), Fail> {
    let alloc = rt.alloc();
    let mut attrs = Attrs::new(alloc);
    let name = Text::from_str(alloc, "role")?;
    attrs.set(name, Text::from_str(alloc, " foo\tBUTTON none")?)?;
    assert_eq!(rt; role_of("div", &attrs), Role::Button);
    Ok(())
}

#[test]
fn an_element_without_attributes(rt: HostRuntime) {
    let bare = Attrs::new(rt.alloc());
    assert!(rt; focusable_of("textarea", &bare) && !hides("textarea", &bare));
    assert!(rt; is_ignored(Role::Generic, &bare));
}

#[test]
fn what_roles_decide(rt: HostRuntime) {
    assert!(rt; prunes(Role::OptionItem) && names_from_content(Role::Heading));
    assert!(rt; name_prohibited(Role::Paragraph));
}
