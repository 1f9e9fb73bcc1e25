//! What an element other than the root is by itself.
ghost use Rattle.std.specs.Prelude.{◌≡◌};
ghost use Rattle.ax_base.specs.Focusable.{focusable, has_presentational_conflict};
ghost use Rattle.ax_base.specs.Roles.{element_role, host_role, resolve_presentational_conflict, hides_element, is_hidden_field, is_ignored, is_bare};

use crate::implicit_role::implicit_role;
use crate::role_attribute::role_from_attribute;
use crate::role_traits::{is_generic, is_no_role};
use ax_base::{
    Attrs, Role, has_global_aria_attribute, has_presentational_conflict, has_tab_index,
    is_focusable,
};

/// The role of an element other than the root: the one that it names itself. Where it names none of the known ones, or none while
/// it may have the focus or has a global ARIA attribute, it is that of the host language.
#[tactic(auto, unfolding(ax_base::specs::Roles::element_role))]
pub fn role_of(tag: &str, attrs: &Attrs) -> Role
    ensures { result ≡ element_role tag.now attrs.now }
{
    let conflict = has_presentational_conflict(tag, attrs);
    let by_host = host_role(conflict, tag, attrs);
    let given = role_from_attribute(attrs).unwrap_or(by_host);
    resolve_presentational_conflict(conflict, given, by_host)
}

/// The role that the host language gives to an element: img where that is none and in conflict.
fn host_role(conflict: bool, tag: &str, attrs: &Attrs) -> Role
    requires { conflict ≡ has_presentational_conflict tag.now attrs.now }
    ensures { result ≡ host_role tag.now attrs.now }
{
    resolve_presentational_conflict(conflict, implicit_role(tag, attrs), Role::Img)
}

/// `role`, or `other` where `role` is none and the element has a presentational-role conflict.
fn resolve_presentational_conflict(conflict: bool, role: Role, other: Role) -> Role
    ensures { result ≡ resolve_presentational_conflict conflict role other }
{
    if conflict && is_no_role(role) {
        other
    } else {
        role
    }
}

/// Whether an element may have the focus: it has a `tabindex`, or is a link, or a control that is not disabled.
pub fn focusable_of(tag: &str, attrs: &Attrs) -> bool
    ensures { result ≡ focusable tag.now attrs.now }
{
    is_focusable(tag, attrs)
}

/// Whether an element other than the root leaves out itself and what is below it.
#[tactic(auto, unfolding(ax_base::specs::Roles::hides_element))]
pub fn hides(tag: &str, attrs: &Attrs) -> bool
    ensures { result ≡ hides_element tag.now attrs.now }
{
    attrs.has("hidden")
        || attrs.has_word("display", "none")
        || attrs.has_word("aria-hidden", "true")
        || is_hidden_field(tag, attrs)
}

/// Whether an element is an `input` whose word of `type` is hidden.
fn is_hidden_field(tag: &str, attrs: &Attrs) -> bool
    ensures { result ≡ is_hidden_field tag.now attrs.now }
{
    tag == "input" && attrs.has_word("type", "hidden")
}

/// Whether an element of a role, other than the root, is left out, but not what is below it.
#[tactic(auto, unfolding(ax_base::specs::Roles::is_ignored))]
pub fn is_ignored(role: Role, attrs: &Attrs) -> bool
    ensures { result ≡ is_ignored role attrs.now }
{
    is_no_role(role) || (is_generic(role) && is_bare(attrs))
}

/// Whether an element says nothing of itself: it has no global ARIA attribute, no `title` and no `tabindex`.
fn is_bare(attrs: &Attrs) -> bool
    ensures { result ≡ is_bare attrs.now }
{
    !has_global_aria_attribute(attrs) && !attrs.is_filled("title") && !has_tab_index(attrs)
}
