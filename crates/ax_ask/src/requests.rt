//! What an accessibility client asks of the tree.

use ax_base::{ObjId, Sequence, Text};

/// A text marker: a place before a character of a text object, or after its last one.
/// `offset` counts characters, which are Unicode scalar values, from 0.
#[derive(Clone, Copy, Debug, PartialEq, Eq)]
pub struct Marker {
    pub id: ObjId,
    pub offset: u32,
}

/// A kind of objects that a search finds.
#[derive(Clone, Copy, Debug, PartialEq, Eq)]
pub enum SearchKey {
    /// Every object.
    Any,
    /// A text.
    Text,
    Heading,
    Link,
    Button,
    Checkbox,
    Radio,
    List,
    /// A field to fill in: textbox, searchbox, combobox, spinbutton or slider.
    Field,
    /// A field, button, checkbox, radio or switch.
    Control,
    /// A landmark of the page, or a form, region or search.
    Landmark,
    /// A table, grid or treegrid.
    Table,
    Image,
    /// An object whose changes are told.
    Live,
    /// An object that can have the focus.
    Focusable,
}

/// The kinds that a search looks for, any one of which is enough. A clause sees them as a list.
pub type SearchKeys = Sequence<SearchKey>;

/// A search: over the objects after `origin` in preorder or, backward, over those before it in reverse; without an origin
/// over all. It keeps those that match a key and, where `words` is given, whose name contains it after case folding.
#[derive(Drop)]
pub struct SearchRequest {
    pub origin: Option<ObjId>,
    pub backward: bool,
    pub keys: SearchKeys,
    pub words: Option<Text>,
    /// How many objects are told at most: 1 to 100.
    pub limit: u8,
}

/// A request. One that names an object asks about that object.
#[derive(Drop)]
pub enum Request {
    /// The root of the tree.
    Root,
    /// The object that has the focus.
    Focus,
    Role(ObjId),
    Name(ObjId),
    Description(ObjId),
    Value(ObjId),
    States(ObjId),
    Level(ObjId),
    Live(ObjId),
    Frame(ObjId),
    Parent(ObjId),
    /// The children from the given place on, counted from 0.
    Children(ObjId, u32),
    /// Which of two markers comes first.
    Compare(Marker, Marker),
    /// The next place between two characters as a reader sees them.
    NextChar(Marker),
    PrevChar(Marker),
    /// The next place at which a word begins.
    NextWord(Marker),
    /// The line that the marker is on.
    LineAt(Marker),
    /// The text between two markers.
    TextOf(Marker, Marker),
    /// The least rectangle that holds the text between two markers.
    BoundsOf(Marker, Marker),
    Search(SearchRequest),
    /// The object at a point, given by x and y.
    Hit(i32, i32),
}
