//! Each question once. The table's rows are compared on stories.
use ax_base::{Attrs, Live, Role, Text};
use ax_states::{level_of, live_set_by, states_of, value_of};
use std::alloc::Global;
use std::test::Fail;

/// One attribute.
fn attr(alloc: Global, name: &str, value: &str) -> Result<Attrs, Fail> {
    let mut attrs = Attrs::new(alloc);
    let key = Text::from_str(alloc, name)?;
    attrs.set(key, Text::from_str(alloc, value)?)?;
    Ok(attrs)
}

#[test]
fn a_button_is_disabled(rt: HostRuntime) -> Result<(), Fail> {
    let attrs = attr(rt.alloc(), "disabled", "")?;
    let states = states_of(Role::Button, "button", &attrs);
    assert!(rt; states.disabled && !states.focusable);
    Ok(())
}

#[test]
fn a_heading_has_a_level(rt: HostRuntime) -> Result<(), Fail> {
    let attrs = attr(rt.alloc(), "aria-level", " 12 ")?;
    assert_eq!(rt; level_of(Role::Heading, "h3", &attrs), Some(12));
    Ok(())
}

#[test]
fn an_alert_is_told_off(rt: HostRuntime) -> Result<(), Fail> {
    let attrs = attr(rt.alloc(), "aria-live", "off")?;
    assert_eq!(rt; live_set_by(Role::Alert, &attrs), Some(Live::Off));
    Ok(())
}

#[test]
fn a_slider_has_a_value(rt: HostRuntime) -> Result<(), Fail> {
    let attrs = attr(rt.alloc(), "value", "3")?;
    assert!(rt; value_of(Role::Slider, "input", &attrs).is_some());
    Ok(())
}
