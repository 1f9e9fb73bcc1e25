//! What an element tells beside its role and name: states, level, live and value. No call takes memory or refuses.
//! The definitions are those of `States.antt` in ax_base/specs.
#![tactic(auto)]

mod levels;
mod live;
mod states;
mod tables;
mod values;

pub use levels::level_of;
pub use live::live_set_by;
pub use states::states_of;
pub use values::value_of;
