//! Where the tree of a document can differ from the one before, and what differs there, with no walk over either tree.
#![tactic(auto)]

mod batches;
mod moved;
mod places;

pub use batches::batch_among;
pub use moved::moved_kids;
pub use places::{candidates, sorted_once};
