//! Why an input is refused.
ghost use Rattle.std.specs.Prelude.{◌≡◌, Err};
ghost use Rattle.story_check.specs.declared.refusals.AcceptFail.{AcceptFail};
ghost use Rattle.story_check.specs.declared.refusals.AcceptFail.TheVariants.{Refused};

use ax_base::NoMemory;
use thiserror::Error;

/// Why an input is refused.
#[derive(Clone, Copy, Debug, PartialEq, Eq)]
pub enum Cause {
    /// The input has more than 16,777,216 bytes.
    StoryTooLong,
    /// The input is not UTF-8.
    NotUtf8,
    /// The line is no JSON value.
    BadJson,
    /// The line is a JSON value that has none of the forms of a line.
    BadLine,
    /// The line may not stand before the start line, or there is no start line.
    NoStart,
    /// The story has started before.
    SecondStart,
    /// As many flush lines stand before as a story may have: 65,536.
    TooManyFlushes,
    /// As many lines of the client stand before as a story may have: 16,384.
    TooManyAsks,
    /// There is a turn list before, or this one has a character other than `P` and `C`, or more than 1,048,576 characters.
    BadTurns,
    /// The line awaits a moment that the story never publishes.
    AwaitTooFar,
    /// Some line could wait for ever.
    Stuck,
    /// The edit names a node that the document lacks.
    NoNode,
    /// The id of the new node is the root's, or was inserted before.
    UsedId,
    /// `before` is not a child of `into`, or is the node being moved.
    BadPlace,
    /// An element is wanted where a text stands.
    NotElement,
    /// A text is wanted where an element stands.
    NotText,
    /// A node would move into itself, or below itself.
    IntoItself,
    /// The root cannot be removed.
    RootFixed,
    /// Some node would have more than 64 ancestors.
    TooDeep,
    /// As many nodes were inserted before as may ever be: 65,536.
    TooMany,
    /// The runs do not cover the text from start to end, or a line number decreases.
    BadRuns,
    /// An attribute value has more than 4,096 bytes, or a text more than 65,536 characters.
    TooLong,
}

/// The first refusal of an input.
#[derive(Clone, Copy, Debug, PartialEq, Eq)]
pub struct Refusal {
    /// The line, counted from 1, or 0 for the whole input.
    pub line: u32,
    pub cause: Cause,
}

/// Why there is no story.
#[derive(Clone, Copy, Debug, PartialEq, Eq, Error)]
pub enum AcceptFail {
    /// The input is refused.
    #[error("the input is refused")]
    Refused(Refusal),
    /// There was no memory left.
    #[error("out of memory")]
    NoMemory,
}

impl From<NoMemory> for AcceptFail {
    ghost from_gives = { λ _ fail. fail ≡ AcceptFail.NoMemory };

    fn from(_: NoMemory) -> AcceptFail {
        AcceptFail::NoMemory
    }
}

/// A refusal of the line with this number.
pub fn refused(line: u32, cause: Cause) -> Result<(), AcceptFail>
    ensures { result ≡ Err (Refused (record { line = line; cause = cause })) }
{
    Err(AcceptFail::Refused(Refusal { line, cause }))
}

/// A refusal of the whole input.
pub fn input_refusal(cause: Cause) -> AcceptFail
    ensures { result ≡ Refused (record { line = 0; cause = cause }) }
{
    AcceptFail::Refused(Refusal { line: 0, cause })
}
