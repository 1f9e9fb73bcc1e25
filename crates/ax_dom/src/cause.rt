//! Why an edit is refused.
ghost use Rattle.std.specs.Prelude.{◌≡◌};
ghost use Rattle.ax_dom.specs.declared.cause.EditCause.{EditCause};

use ax_base::NoMemory;
use thiserror::Error;

/// Why an edit is refused, in the order in which the causes are tried. After any of them the document is unchanged.
#[derive(Clone, Copy, Debug, PartialEq, Eq, Error)]
pub enum EditCause {
    /// The edit names a node that the document lacks.
    #[error("the document has no such node")]
    NoNode,
    /// The id of an insert is the root's, or was inserted before.
    #[error("the id is the root's, or was inserted before")]
    UsedId,
    /// `before` is not a child of `into`, or is the node being moved.
    #[error("the place names no other child of the parent")]
    BadPlace,
    /// An element is wanted where a text stands.
    #[error("the node is a text, and an element is wanted")]
    NotElement,
    /// A text is wanted where an element stands.
    #[error("the node is an element, and a text is wanted")]
    NotText,
    /// A node would move into itself, or below itself.
    #[error("a node cannot move into itself or below itself")]
    IntoItself,
    /// The root cannot be removed.
    #[error("the root cannot be removed")]
    RootFixed,
    /// Some node would have more than 64 ancestors.
    #[error("a node would be more than 64 levels below the root")]
    TooDeep,
    /// As many nodes were inserted as may ever be: 65,536.
    #[error("65536 nodes were inserted already")]
    TooMany,
    /// The runs do not cover the text from start to end, or a line number decreases.
    #[error("the runs do not cover the text in order")]
    BadRuns,
    /// An attribute value has more than 4,096 bytes, or a text more than 65,536 characters.
    #[error("an attribute value or a text is too long")]
    TooLong,
    /// There was no memory left. None of the other causes holds.
    #[error("out of memory")]
    NoMemory,
}

impl From<NoMemory> for EditCause {
    ghost from_gives = { λ e cause. cause ≡ EditCause.NoMemory };

    fn from(_: NoMemory) -> EditCause {
        EditCause::NoMemory
    }
}
