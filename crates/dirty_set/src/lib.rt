//! Marks of edits, and what they can reach in a document.
#![tactic(auto)]

mod around;
mod below;
mod carried;
mod climb;
mod laws;
mod marks;
mod noted;
mod reach;
mod turned;

pub use laws::marks_cover;
pub use marks::Marks;
