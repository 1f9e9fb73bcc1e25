//! What a node of the document is, apart from its place.
use crate::{Attrs, Rect, Runs, Text};

/// An element with its tag, attributes and frame, or a text with its characters and runs.
#[derive(Debug, Drop)]
pub enum Body {
    Element {
        tag: Text,
        attrs: Attrs,
        frame: Rect,
    },
    Words {
        chars: Text,
        runs: Runs,
    },
}
