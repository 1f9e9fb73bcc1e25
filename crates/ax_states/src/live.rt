//! The live that an element sets.
ghost use Rattle.std.specs.Prelude.{◌≡◌};
ghost use Rattle.ax_base.specs.States.{live_by_word, live_by_role, live_set_by};

use ax_base::{Attrs, Live, Role};

/// The live that an element of a role sets: by the word of `aria-live`, else by its role.
#[tactic(auto, unfolding(ax_base::specs::States::live_set_by))]
pub fn live_set_by(role: Role, attrs: &Attrs) -> Option<Live>
    ensures { result ≡ live_set_by role attrs.now }
{
    live_by_word(attrs).or(live_by_role(role))
}

fn live_by_word(attrs: &Attrs) -> Option<Live>
    ensures { result ≡ live_by_word attrs.now }
{
    if attrs.has_word("aria-live", "off") {
        Some(Live::Off)
    } else if attrs.has_word("aria-live", "polite") {
        Some(Live::Polite)
    } else if attrs.has_word("aria-live", "assertive") {
        Some(Live::Assertive)
    } else {
        None
    }
}

/// The live that a role sets by itself.
fn live_by_role(role: Role) -> Option<Live>
    ensures { result ≡ live_by_role role }
{
    match role {
        Role::Alert => Some(Live::Assertive),
        Role::Log => Some(Live::Polite),
        Role::Marquee => Some(Live::Off),
        Role::Status => Some(Live::Polite),
        Role::Timer => Some(Live::Off),
        _ => None,
    }
}
