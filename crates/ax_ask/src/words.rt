//! The words of replies.
ghost use Rattle.std.specs.Prelude.{◌≡◌};
ghost use Rattle.ax_ask.specs.Words.{truth_word, placing_word};

use crate::Placing;

/// The printed word of a truth value.
pub fn truth_word(holds: bool) -> &'static str
    ensures { result.now ≡ truth_word holds }
{
    if holds { "true" } else { "false" }
}

/// The printed word of where one marker stands to another.
pub fn placing_word(placing: Placing) -> &'static str
    ensures { result.now ≡ placing_word placing }
{
    match placing {
        Placing::Before => "before",
        Placing::Same => "same",
        Placing::After => "after",
    }
}
