//! The texts that are embedded in elements (AccName 1.2, section 4.3.2, step 2C, 'Embedded Control', and for `img` and push buttons 2E).
ghost use Rattle.std.specs.Prelude.{◌≡◌, if◌then◌else◌, [], codes};
ghost use Rattle.ax_base.specs.Values.{text_in};
ghost use Rattle.ax_base.specs.Said.{holds_text, holds_range, range_text, embedded};

use crate::first_said::said_or;
use crate::host_language_label::is_button_field;
use ax_base::{Attrs, Role};

/// The text embedded in an element of a role, or nothing.
#[tactic(auto, unfolding(ax_base::specs::Said::embedded))]
pub fn embedded<'a>(role: Role, tag: &str, attrs: &'a Attrs) -> &'a str
    ensures { result.now ≡ embedded role tag.now attrs.now }
{
    let alt = text_where(tag == "img", attrs, "alt");
    let pushed = text_where(is_button_field(tag, attrs), attrs, "value");
    let held = text_where(holds_text(role), attrs, "value");
    let range = range_where(holds_range(role), attrs);
    said_or(alt, said_or(pushed, said_or(held, said_or(range, ""))))
}

/// The value of an attribute, where a test holds.
fn text_where<'a>(test: bool, attrs: &'a Attrs, name: &str) -> &'a str
    ensures { result.now ≡ (if test then text_in name.now attrs.now else []) }
{
    if test { attrs.text(name) } else { "" }
}

/// The text of a range, where a test holds.
fn range_where(test: bool, attrs: &Attrs) -> &str
    ensures { result.now ≡ (if test then range_text attrs.now else []) }
{
    if test { range_text(attrs) } else { "" }
}

/// The text of a range: the first that is not blank of three attributes.
fn range_text(attrs: &Attrs) -> &str
    ensures { result.now ≡ range_text attrs.now }
{
    let text = attrs.text("aria-valuetext");
    let now = attrs.text("aria-valuenow");
    let value = attrs.text("value");
    said_or(text, said_or(now, said_or(value, "")))
}

/// Whether the text of an element of a role is its `value`.
fn holds_text(role: Role) -> bool
    ensures { result ≡ holds_text role }
{
    matches!(role, Role::Searchbox | Role::Textbox)
}

/// Whether the text of an element of a role is its place in a range.
fn holds_range(role: Role) -> bool
    ensures { result ≡ holds_range role }
{
    matches!(role, Role::Slider)
}
