//! Reading one line of a story.
#![tactic(auto)]

mod attributes;
mod edits;
mod forms;
mod keys;
mod kinds;
mod markers;
mod reading;
mod requests;
mod runs;
mod searches;
mod values;

pub use reading::{Line, LineFail, read_line};
