//! The `title` of an element (AccName 1.2, section 4.3.2, step 2I, 'Tooltip').
ghost use Rattle.std.specs.Prelude.{◌≡◌};
ghost use Rattle.ax_names.specs.OwnTexts.{title_said};

use crate::first_said::said_or;
use ax_base::Attrs;

/// What an element says after its children: its `title`, where it is not blank.
pub fn title_said(attrs: &Attrs) -> &str
    ensures { result.now ≡ title_said attrs.now }
{
    said_or(attrs.text("title"), "")
}
