//! What differs in two trees, and batches merged into one.
#![tactic(auto)]

mod batch;
mod between;
mod fate;
mod merged;
mod props;
mod roomy;

pub use batch::{Batch, Change, Changes, Records};
pub use between::{batch_between, batch_leads};
pub use merged::{Merged, batch_is_in_order, merge, merge_leads, merge_patches};
