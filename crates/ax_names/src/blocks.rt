//! Elements that stand in blocks of their own, and the spaces round what these say.
ghost use Rattle.std.specs.Prelude.{◌≡◌, IfOk, bytes_eq};
ghost use Rattle.std.specs.List.{list_any};
ghost use Rattle.ax_base.specs.Characters.{Chars};
ghost use Rattle.ax_base.specs.Said.{spaced, is_block, is_block_element, block_tags};

use crate::gather::Gather;
use ax_base::{Attrs, Body, NoMemory};
use std::alloc::Global;

/// Whether a node stands in a block of its own; a text does not.
pub fn is_block(node: &Body) -> bool
    ensures { result ≡ is_block node.now }
{
    match node {
        Body::Words { .. } => false,
        Body::Element { tag, attrs, .. } => is_block_element(tag.as_str(), attrs),
    }
}

/// Whether an element stands in a block of its own: where the word of `display` is block, and by its tag where that word is not
/// inline.
#[tactic(auto, unfolding(ax_base::specs::Said::is_block_element))]
fn is_block_element(tag: &str, attrs: &Attrs) -> bool
    ensures { result ≡ is_block_element tag.now attrs.now }
{
    attrs.has_word("display", "block")
        || (!attrs.has_word("display", "inline") && has_block_tag(tag))
}

/// Whether a tag is one of those of elements in blocks of their own.
fn has_block_tag(tag: &str) -> bool
    ensures { result ≡ list_any (bytes_eq tag.now) block_tags }
{
    matches!(
        tag,
        "p" | "div"
            | "h1"
            | "h2"
            | "h3"
            | "h4"
            | "h5"
            | "h6"
            | "li"
            | "ul"
            | "ol"
            | "main"
            | "nav"
            | "article"
            | "section"
            | "table"
            | "tr"
            | "td"
            | "th"
            | "br"
    )
}

/// Puts a text between two spaces where it stands apart.
pub(crate) fn with_spaces<G: Gather>(alloc: Global, apart: bool, said: G) -> Result<G, NoMemory>
    ensures { IfOk result (λ g. (t : Chars) → said ≡ G.of t → g ≡ G.of (spaced apart t)) }
{
    if apart {
        said.into_spaced(alloc)
    } else {
        Ok(said)
    }
}
