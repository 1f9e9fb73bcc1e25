//! The limits that code and clauses share. Those of one crate alone stand there.

/// The most characters of an accessible name or description.
pub const MAX_NAME_CHARACTERS: usize = 512;

/// The most characters of a text of the document.
pub const MAX_TEXT_CHARACTERS: usize = 65_536;

/// The most ancestors of a node, so how far below the root it may be.
pub const MAX_DEPTH: u32 = 64;

/// The most nodes that are ever inserted into a document. The root is none of them.
pub const MAX_INSERTS: usize = 65_536;

/// The most tokens of an attribute that refer to an element (AccName 1.2, section 4.3.2, 'LabelledBy').
pub const MAX_REFERENCES: u8 = 8;

/// How many of the least ids are kept in a list by their number, and not in a map.
pub(crate) const NEAR_IDS: u32 = 131_072;
