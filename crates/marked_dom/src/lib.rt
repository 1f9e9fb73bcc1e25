//! The document that is edited, and the marks of its edits since the last flush.
#![tactic(auto)]

mod marked;

pub use marked::{MarkedDom, UnmarkedDom};
