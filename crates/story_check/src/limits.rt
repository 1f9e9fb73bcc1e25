//! The limits of a story.

/// The most bytes of a story.
pub const MAX_STORY_BYTES: usize = 16_777_216;

/// The most flush lines of a story. One flush more may come behind them, for the edits of the last lines.
pub const MAX_FLUSHES: u32 = 65_536;

/// The most lines of the client.
pub const MAX_CLIENT_LINES: usize = 16_384;

/// The most characters of a turn list.
pub const MAX_TURNS: usize = 1_048_576;
