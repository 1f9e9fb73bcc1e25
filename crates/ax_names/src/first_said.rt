//! The first of some texts that is not blank.
ghost use Rattle.std.specs.Prelude.{◌≡◌};
ghost use Rattle.ax_names.specs.OwnTexts.{said_or};

use ax_base::is_blank;

/// The first of two texts where it is not blank, and else the second.
pub fn said_or<'a>(first: &'a str, second: &'a str) -> &'a str
    ensures { result.now ≡ said_or first.now second.now }
{
    if is_blank(first) { second } else { first }
}
