//! The `aria-label` of an element, and else the text embedded in it (AccName 1.2, section 4.3.2, step 2D, 'AriaLabel').
ghost use Rattle.std.specs.Prelude.{◌≡◌};
ghost use Rattle.ax_names.specs.OwnTexts.{own_text};

use crate::embedded_control::embedded;
use crate::first_said::said_or;
use ax_base::{Attrs, Role};

/// What an element of a role says by itself, before its children: its `aria-label`, else the text embedded in it, the first that
/// is not blank.
pub fn own_text<'a>(role: Role, tag: &str, attrs: &'a Attrs) -> &'a str
    ensures { result.now ≡ own_text role tag.now attrs.now }
{
    let label = attrs.text("aria-label");
    let inside = embedded(role, tag, attrs);
    said_or(label, said_or(inside, ""))
}
