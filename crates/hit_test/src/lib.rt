//! The object at a point.
#![tactic(auto)]

mod point;

pub use point::hit;
