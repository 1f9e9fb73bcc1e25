//! Which elements may have the focus, and which are in conflict with the role none.
ghost use Rattle.std.specs.Prelude.{◌≡◌};
ghost use Rattle.std.specs.List.{list_any};
ghost use Rattle.ax_base.specs.Values.{is_filled};
ghost use Rattle.ax_base.specs.Focusable.{is_field, is_control, has_tab_index, is_link, is_enabled, focusable, has_global_aria_attribute, has_presentational_conflict};

use crate::Attrs;
use crate::values::is_tab_index;

/// Whether it is the tag of a field that a text or a choice is put in: `input` or `textarea`.
pub fn is_field(tag: &str) -> bool
    ensures { result ≡ is_field tag.now }
{
    tag == "input" || tag == "textarea"
}

/// Whether it is the tag of a control: `button` or a field.
pub fn is_control(tag: &str) -> bool
    ensures { result ≡ is_control tag.now }
{
    tag == "button" || is_field(tag)
}

/// Whether `tabindex` is there and a number.
pub fn has_tab_index(attrs: &Attrs) -> bool
    ensures { result ≡ has_tab_index attrs.now }
{
    is_tab_index(attrs.text("tabindex"))
}

/// Whether an element may have the focus: it has a `tabindex`, or is a link, or a control that is not disabled.
pub fn is_focusable(tag: &str, attrs: &Attrs) -> bool
    ensures { result ≡ focusable tag.now attrs.now }
{
    has_tab_index(attrs) || is_link(tag, attrs) || is_enabled(tag, attrs)
}

fn is_link(tag: &str, attrs: &Attrs) -> bool
    ensures { result ≡ is_link tag.now attrs.now }
{
    tag == "a" && attrs.has("href")
}

fn is_enabled(tag: &str, attrs: &Attrs) -> bool
    ensures { result ≡ is_enabled tag.now attrs.now }
{
    is_control(tag) && !attrs.has("disabled")
}

/// The global ARIA attributes that count.
const GLOBAL_ARIA_ATTRIBUTES: [&str; 14] = [
    "aria-atomic",
    "aria-busy",
    "aria-controls",
    "aria-current",
    "aria-describedby",
    "aria-details",
    "aria-flowto",
    "aria-keyshortcuts",
    "aria-label",
    "aria-labelledby",
    "aria-live",
    "aria-owns",
    "aria-relevant",
    "aria-roledescription",
];

/// Whether an element has one of the global ARIA attributes, and not blank.
#[tactic(auto, unfolding(crate::specs::Focusable::has_global_aria_attribute))]
pub fn has_global_aria_attribute(attrs: &Attrs) -> bool
    ensures { result ≡ has_global_aria_attribute attrs.now }
{
    let names = GLOBAL_ARIA_ATTRIBUTES;
    has_filled(attrs, names.as_slice())
}

/// Whether an element has one of these attributes, and not blank.
fn has_filled(attrs: &Attrs, names: &[&str]) -> bool
    ensures { result ≡ list_any (λ name. is_filled name.now attrs.now) names.now }
{
    for name in names {
        if attrs.is_filled(*name) {
            return true;
        }
    }
    false
}

/// Whether an element is in conflict with the role none: it may have the focus, or has a global ARIA attribute.
pub fn has_presentational_conflict(tag: &str, attrs: &Attrs) -> bool
    ensures { result ≡ has_presentational_conflict tag.now attrs.now }
{
    is_focusable(tag, attrs) || has_global_aria_attribute(attrs)
}
