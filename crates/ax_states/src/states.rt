//! The states of an element.
ghost use Rattle.std.specs.Prelude.{◌≡◌};
ghost use Rattle.ax_base.specs.States.{says_true, truth_in, is_disabled, is_required, is_readonly, is_invalid, is_check_input, yes_where, checked_by_word, checked_value, checked_of, selected_of, pressed_by_word, pressed_of, states_of};

use crate::tables::{is_checkable, is_selectable, may_be_mixed};
use ax_base::{Attrs, Checked, Role, States, is_control, is_field, is_focusable};

/// The states of an element of a role.
#[tactic(auto, unfolding(ax_base::specs::States::states_of))]
pub fn states_of(role: Role, tag: &str, attrs: &Attrs) -> States
    ensures { result ≡ states_of role tag.now attrs.now }
{
    States {
        focusable: is_focusable(tag, attrs),
        disabled: is_disabled(tag, attrs),
        checked: checked_of(role, tag, attrs),
        expanded: truth_in("aria-expanded", attrs),
        selected: selected_of(role, attrs),
        pressed: pressed_of(role, attrs),
        required: is_required(tag, attrs),
        readonly: is_readonly(tag, attrs),
        invalid: is_invalid(attrs),
        busy: says_true("aria-busy", attrs),
    }
}

/// Whether the word of an attribute is true.
fn says_true(name: &str, attrs: &Attrs) -> bool
    ensures { result ≡ says_true name.now attrs.now }
{
    attrs.has_word(name, "true")
}

/// What an attribute says whose word is true or false.
fn truth_in(name: &str, attrs: &Attrs) -> Option<bool>
    ensures { result ≡ truth_in name.now attrs.now }
{
    if says_true(name, attrs) {
        Some(true)
    } else if attrs.has_word(name, "false") {
        Some(false)
    } else {
        None
    }
}

fn is_disabled(tag: &str, attrs: &Attrs) -> bool
    ensures { result ≡ is_disabled tag.now attrs.now }
{
    says_true("aria-disabled", attrs) || (is_control(tag) && attrs.has("disabled"))
}

fn is_required(tag: &str, attrs: &Attrs) -> bool
    ensures { result ≡ is_required tag.now attrs.now }
{
    says_true("aria-required", attrs) || (is_field(tag) && attrs.has("required"))
}

fn is_readonly(tag: &str, attrs: &Attrs) -> bool
    ensures { result ≡ is_readonly tag.now attrs.now }
{
    says_true("aria-readonly", attrs) || (is_field(tag) && attrs.has("readonly"))
}

fn is_invalid(attrs: &Attrs) -> bool
    ensures { result ≡ is_invalid attrs.now }
{
    attrs.is_filled("aria-invalid") && !attrs.has_word("aria-invalid", "false")
}

/// Whether an element is checked, where its role can be.
fn checked_of(role: Role, tag: &str, attrs: &Attrs) -> Option<Checked>
    ensures { result ≡ checked_of role tag.now attrs.now }
{
    if is_checkable(role) {
        Some(checked_value(role, tag, attrs))
    } else {
        None
    }
}

fn checked_value(role: Role, tag: &str, attrs: &Attrs) -> Checked
    ensures { result ≡ checked_value role tag.now attrs.now }
{
    if is_check_input(tag, attrs) {
        yes_where(attrs.has("checked"))
    } else {
        checked_by_word(role, attrs)
    }
}

/// Whether an element is a checkbox or radio button of HTML, which `checked` alone checks.
fn is_check_input(tag: &str, attrs: &Attrs) -> bool
    ensures { result ≡ is_check_input tag.now attrs.now }
{
    tag == "input" && (attrs.has_word("type", "checkbox") || attrs.has_word("type", "radio"))
}

fn yes_where(checked: bool) -> Checked
    ensures { result ≡ yes_where checked }
{
    if checked { Checked::Yes } else { Checked::No }
}

/// Whether `aria-checked` checks an element of a role.
fn checked_by_word(role: Role, attrs: &Attrs) -> Checked
    ensures { result ≡ checked_by_word role attrs.now }
{
    if says_true("aria-checked", attrs) {
        Checked::Yes
    } else if attrs.has_word("aria-checked", "mixed") && may_be_mixed(role) {
        Checked::Mixed
    } else {
        Checked::No
    }
}

/// Whether an element is selected, where its role can be and `aria-selected` says so.
fn selected_of(role: Role, attrs: &Attrs) -> Option<bool>
    ensures { result ≡ selected_of role attrs.now }
{
    if is_selectable(role) {
        truth_in("aria-selected", attrs)
    } else {
        None
    }
}

/// Whether a button is pressed, where `aria-pressed` says so.
fn pressed_of(role: Role, attrs: &Attrs) -> Option<Checked>
    ensures { result ≡ pressed_of role attrs.now }
{
    match role {
        Role::Button => pressed_by_word(attrs),
        _ => None,
    }
}

fn pressed_by_word(attrs: &Attrs) -> Option<Checked>
    ensures { result ≡ pressed_by_word attrs.now }
{
    if says_true("aria-pressed", attrs) {
        Some(Checked::Yes)
    } else if attrs.has_word("aria-pressed", "false") {
        Some(Checked::No)
    } else if attrs.has_word("aria-pressed", "mixed") {
        Some(Checked::Mixed)
    } else {
        None
    }
}
