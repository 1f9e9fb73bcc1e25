//! The level of an element.
ghost use Rattle.std.specs.Prelude.{◌≡◌};
ghost use Rattle.ax_base.specs.States.{level_number, level_given, level_by_tag, level_of, heading_level, at_least_one};

use ax_base::{Attrs, Role, are_digits, trimmed};

/// The level of an element of a role. A heading has that of `aria-level`, else of its tag, else 2; a row or treeitem has that of
/// `aria-level`; others have none.
#[tactic(auto, unfolding(ax_base::specs::States::level_of))]
pub fn level_of(role: Role, tag: &str, attrs: &Attrs) -> Option<u16>
    ensures { result ≡ level_of role tag.now attrs.now }
{
    match role {
        Role::Heading => Some(heading_level(tag, attrs)),
        Role::Row => level_given(attrs),
        Role::Treeitem => level_given(attrs),
        _ => None,
    }
}

/// The level of a heading.
fn heading_level(tag: &str, attrs: &Attrs) -> u16
    ensures { result ≡ heading_level tag.now attrs.now }
{
    level_given(attrs).or(level_by_tag(tag)).unwrap_or(2)
}

/// The level of a heading by its tag.
fn level_by_tag(tag: &str) -> Option<u16>
    ensures { result ≡ level_by_tag tag.now }
{
    match tag {
        "h1" => Some(1),
        "h2" => Some(2),
        "h3" => Some(3),
        "h4" => Some(4),
        "h5" => Some(5),
        "h6" => Some(6),
        _ => None,
    }
}

/// The level that `aria-level` says.
fn level_given(attrs: &Attrs) -> Option<u16>
    ensures { result ≡ level_given attrs.now }
{
    level_number(trimmed(attrs.text("aria-level")))
}

/// The level that 1 to 3 digits say, which is at least 1.
fn level_number(text: &str) -> Option<u16>
    ensures { result ≡ level_number text.now }
{
    if !are_digits(text.as_bytes(), 3) {
        return None;
    }
    match text.parse::<u16>() {
        Ok(level) => at_least_one(level),
        Err(_) => None,
    }
}

fn at_least_one(level: u16) -> Option<u16>
    ensures { result ≡ at_least_one level }
{
    if level == 0 { None } else { Some(level) }
}
