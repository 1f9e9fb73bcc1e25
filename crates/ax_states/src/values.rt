//! The value of an element.
ghost use Rattle.std.specs.Prelude.{◌≡◌, option_copied};
ghost use Rattle.ax_base.specs.States.{range_value, value_shown};

use crate::tables::{has_range_value, has_text_value};
use ax_base::{Attrs, Role, Text};

/// The value of an element of a role, or `None` where it has none.
#[tactic(auto, unfolding(ax_base::specs::States::value_shown))]
pub fn value_of<'a>(role: Role, tag: &str, attrs: &'a Attrs) -> Option<&'a Text>
    ensures { option_copied result ≡ value_shown role tag.now attrs.now }
{
    if has_text_value(role) {
        attrs.get("value")
    } else if has_range_value(role) {
        range_value(tag, attrs)
    } else {
        None
    }
}

/// The value in a range: `aria-valuetext`, else `aria-valuenow`, each where it is not blank, else the `value` of an `input`.
fn range_value<'a>(tag: &str, attrs: &'a Attrs) -> Option<&'a Text>
    ensures { option_copied result ≡ range_value tag.now attrs.now }
{
    if attrs.is_filled("aria-valuetext") {
        attrs.get("aria-valuetext")
    } else if attrs.is_filled("aria-valuenow") {
        attrs.get("aria-valuenow")
    } else if tag == "input" {
        attrs.get("value")
    } else {
        None
    }
}
