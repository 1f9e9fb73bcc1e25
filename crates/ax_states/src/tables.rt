//! Which roles have which states and values.
ghost use Rattle.std.specs.Prelude.{◌≡◌};
ghost use Rattle.ax_base.specs.States.{is_checkable, may_be_mixed, is_selectable, has_text_value, has_range_value};

use ax_base::Role;

/// Whether an object of a role can be checked.
pub(crate) fn is_checkable(role: Role) -> bool
    ensures { result ≡ is_checkable role }
{
    matches!(
        role,
        Role::Checkbox | Role::Menuitemcheckbox | Role::Menuitemradio | Role::Radio | Role::Switch
    )
}

/// Whether an object of a role can be checked in part.
pub(crate) fn may_be_mixed(role: Role) -> bool
    ensures { result ≡ may_be_mixed role }
{
    matches!(role, Role::Checkbox | Role::Menuitemcheckbox)
}

/// Whether an object of a role can be selected.
pub(crate) fn is_selectable(role: Role) -> bool
    ensures { result ≡ is_selectable role }
{
    matches!(
        role,
        Role::Columnheader
            | Role::Gridcell
            | Role::OptionItem
            | Role::Row
            | Role::Rowheader
            | Role::Tab
            | Role::Treeitem
    )
}

/// Whether the value of a role is a text.
pub(crate) fn has_text_value(role: Role) -> bool
    ensures { result ≡ has_text_value role }
{
    matches!(role, Role::Combobox | Role::Searchbox | Role::Textbox)
}

/// Whether the value of a role is in a range.
pub(crate) fn has_range_value(role: Role) -> bool
    ensures { result ≡ has_range_value role }
{
    matches!(
        role,
        Role::Meter | Role::Progressbar | Role::Scrollbar | Role::Slider | Role::Spinbutton
    )
}
