//! The role that an element names itself.
ghost use Rattle.std.specs.Prelude.{◌≡◌, find};
ghost use Rattle.ax_base.specs.Characters.{tokens};
ghost use Rattle.ax_base.specs.KnownRoles.{is_named_by, known_role, first_known};
ghost use Rattle.ax_base.specs.Roles.{role_from_attribute};

use ax_base::{Attrs, Role, first_token, is_same_bytes, role_word};

/// The role that an element names itself: the first known token of `role`.
pub(crate) fn role_from_attribute(attrs: &Attrs) -> Option<Role>
    ensures { result ≡ role_from_attribute attrs.now }
{
    first_known(attrs.text("role"))
}

/// The first role that is named among the tokens of a text.
fn first_known(text: &str) -> Option<Role>
    ensures { result ≡ first_known (tokens text.now) }
{
    let mut rest = text;
    while let Some((token, after)) = first_token(rest) {
        let role = known_role(token.as_bytes());
        if role.is_some() {
            return role;
        }
        rest = after;
    }
    None
}

/// The role that a token names; `presentation` is another word for none.
#[tactic(auto, unfolding(ax_base::specs::KnownRoles::known_role))]
fn known_role(token: &[u8]) -> Option<Role>
    ensures { result ≡ known_role token.now }
{
    if is_same_bytes(token, b"presentation") {
        Some(Role::NoRole)
    } else {
        role_named(token, &Role::ALL)
    }
}

/// The first of some roles that a token names.
fn role_named(token: &[u8], roles: &[Role]) -> Option<Role>
    ensures { result ≡ find (is_named_by token.now) roles.now }
{
    for role in roles {
        if is_named_by(token, *role) {
            return Some(*role);
        }
    }
    None
}

/// Whether a token is the word of a role that may be named.
fn is_named_by(token: &[u8], role: Role) -> bool
    ensures { result ≡ is_named_by token.now role }
{
    !matches!(role, Role::Text) && is_same_bytes(token, role_word(role).as_bytes())
}
