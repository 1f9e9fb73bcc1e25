//! What a role decides by itself.
ghost use Rattle.std.specs.Prelude.{◌≡◌};
ghost use Rattle.ax_base.specs.NamedRoles.{names_from_content, name_prohibited};
ghost use Rattle.ax_base.specs.Roles.{children_presentational, is_no_role, is_generic};

use ax_base::Role;

/// Whether a role leaves out what is below: its children are presentational.
pub fn prunes(role: Role) -> bool
    ensures { result ≡ children_presentational role }
{
    matches!(
        role,
        Role::Button
            | Role::Checkbox
            | Role::Img
            | Role::OptionItem
            | Role::Progressbar
            | Role::Radio
            | Role::Slider
            | Role::Switch
            | Role::Tab
    )
}

/// Whether a role is named from content.
pub fn names_from_content(role: Role) -> bool
    ensures { result ≡ names_from_content role }
{
    matches!(
        role,
        Role::Button
            | Role::Cell
            | Role::Checkbox
            | Role::Columnheader
            | Role::Gridcell
            | Role::Heading
            | Role::Link
            | Role::Menuitem
            | Role::OptionItem
            | Role::Radio
            | Role::Row
            | Role::Rowheader
            | Role::Switch
            | Role::Tab
            | Role::Tooltip
            | Role::Treeitem
    )
}

/// Whether a role may not be named.
pub fn name_prohibited(role: Role) -> bool
    ensures { result ≡ name_prohibited role }
{
    matches!(
        role,
        Role::Caption
            | Role::Code
            | Role::Emphasis
            | Role::Generic
            | Role::NoRole
            | Role::Paragraph
            | Role::Strong
    )
}

/// Whether it is the role none.
pub(crate) fn is_no_role(role: Role) -> bool
    ensures { result ≡ is_no_role role }
{
    matches!(role, Role::NoRole)
}

/// Whether it is the generic role.
pub(crate) fn is_generic(role: Role) -> bool
    ensures { result ≡ is_generic role }
{
    matches!(role, Role::Generic)
}
