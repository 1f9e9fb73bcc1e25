//! Numbers of nodes and of moments, and the two sides of the core.
ghost use Rattle.std.specs.Prelude.{◌≡◌, ℕ};

use std::marker::Model;

/// The number of a node of the document, and of the object that it may be in the tree. The root is 1.
/// A clause sees it as that number.
#[derive(Clone, Copy, Debug, PartialEq, Eq, PartialOrd, Ord, Hash)]
pub struct ObjId(pub u32);

impl Model for ObjId {
    ghost Value = { ℕ };

    ghost view = { λ a. a.0 };

    ghost inverse = { λ n. record { 0 = n } };
}

impl ObjId {
    /// The root of the document, and of the tree.
    pub const ROOT: ObjId = ObjId(1);

    /// The id as a number.
    pub fn number(self) -> u32
        ensures { result ≡ self }
    {
        self.0
    }
}

/// The number of a flush. Moment 0 is the document before the first flush. A clause sees it as that number.
#[derive(Clone, Copy, Debug, PartialEq, Eq, PartialOrd, Ord, Hash)]
pub struct Moment(pub u32);

impl Model for Moment {
    ghost Value = { ℕ };

    ghost view = { λ a. a.0 };

    ghost inverse = { λ n. record { 0 = n } };
}

impl Moment {
    /// The moment as a number.
    pub fn number(self) -> u32
        ensures { result ≡ self }
    {
        self.0
    }
}

/// A side of the core: the page, which owns the document, or the client (the accessibility thread), which plays the requests of
/// assistive technology.
#[derive(Clone, Copy, Debug, PartialEq, Eq)]
pub enum Who {
    Page,
    Client,
}
