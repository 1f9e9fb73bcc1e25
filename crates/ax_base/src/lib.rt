//! Plain values of the accessibility core, and the definitions that all layers cite.
#![tactic(auto)]

mod attrs;
mod body;
mod dense;
mod focusable;
mod id_map;
mod id_set;
mod ids;
mod limits;
mod lists;
mod matching;
mod memory;
mod notices;
mod pieces;
mod quote;
mod rect;
mod role;
mod seeking;
mod sequence;
mod states;
mod steps;
mod text;
mod values;
mod white;

pub use attrs::{Attr, Attrs};
pub use body::Body;
pub use focusable::{
    has_global_aria_attribute, has_presentational_conflict, has_tab_index, is_control, is_field,
    is_focusable,
};
pub use id_map::IdMap;
pub use id_set::IdSet;
pub use ids::{Moment, ObjId, Who};
pub use limits::{
    MAX_DEPTH, MAX_INSERTS, MAX_NAME_CHARACTERS, MAX_REFERENCES, MAX_TEXT_CHARACTERS,
};
pub use lists::{Ids, Runs};
pub use matching::differing;
pub use memory::NoMemory;
pub use notices::{Notice, NoticeKind, Notices};
pub use pieces::first_token;
pub use quote::push_quoted;
pub use rect::{Rect, Run, contains_point, unite};
pub use role::{Role, all_roles_are_listed, role_word};
pub use seeking::first_place;
pub use sequence::Sequence;
pub use states::{Checked, Live, States};
pub use steps::Steps;
pub use text::{Text, cap512};
pub use values::{are_digits, is_blank, is_same_bytes, is_same_word, trimmed};
pub use white::flat;
