//! What the tree answers.
use crate::Marker;
use ax_base::{Ids, Live, ObjId, Rect, Role, States, Text};

/// Where one marker stands, seen from another.
#[derive(Clone, Copy, Debug, PartialEq, Eq)]
pub enum Placing {
    Before,
    Same,
    After,
}

/// A reply.
#[derive(Drop)]
pub enum Reply {
    /// The tree lacks an object that the request names.
    Stale,
    /// A marker stands in no text, or past its end.
    Out,
    /// The text between two markers has more than 4,096 characters.
    Long,
    /// There is no such thing.
    Nothing,
    Root(ObjId),
    Focus(ObjId),
    Role(Role),
    Name(Text),
    Description(Text),
    Value(Text),
    States(States),
    /// The level of a heading, row or treeitem, from 1 on.
    Level(u16),
    Live(Live),
    Frame(Rect),
    Parent(ObjId),
    /// How many children there are, and those that are told.
    Children(u32, Ids),
    /// Where the first marker stands, seen from the second.
    Order(Placing),
    Mark(Marker),
    /// From one marker to another.
    Span(Marker, Marker),
    /// The text between two markers.
    Words(Text),
    Bounds(Rect),
    /// What a search found.
    Found(Ids),
    Hit(ObjId),
}
