//! Text markers: their order, their moves, their lines, and the text and the bounds of ranges.
#![tactic(auto)]

mod ancestors;
mod bounds;
mod contents;
mod errors;
mod lines;
mod moves;
mod placing;
mod ranges;
mod standing;
mod stops;
mod words;

pub use bounds::range_bounds;
pub use contents::range_text;
pub use errors::MarkError;
pub use lines::line_range;
pub use moves::{next_char, next_word, prev_char};
pub use placing::compare;
