//! What becomes of a node.

/// Whether a node comes into the index or goes out of it.
#[derive(Clone, Copy)]
pub(crate) enum Change {
    /// It comes, behind the nodes that came before it.
    Comes,
    /// It goes.
    Goes,
}
