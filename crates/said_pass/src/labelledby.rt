//! What references say (AccName 1.2, section 4.3.2, 'LabelledBy').
ghost use Rattle.std.specs.Prelude.{◌≡◌, ◌∷◌, ◌++◌, [], IfOk, OnOk};
ghost use Rattle.ax_base.specs.Characters.{Chars, tokens};
ghost use Rattle.ax_names.specs.Pieces.{piece_of};
ghost use Rattle.ax_names.specs.Sessions.{referred_by};
ghost use Rattle.said_pass.specs.Saids.{said_by_token, said_by_tokens};

use crate::sources::Sources;
use ax_base::{MAX_REFERENCES, NoMemory, first_token};
use ax_names::{Piece, pieces_tell};
use std::alloc::Global;

/// The name part for what the first eight tokens of a text refer to, joined by single spaces.
pub(crate) fn referred_by(
    alloc: Global,
    sources: &Sources<'_>,
    text: &str,
) -> Result<Piece, NoMemory>
    ensures { IfOk result (λ p. p ≡ piece_of (referred_by sources.now text.now)) }
{
    pieces_tell();
    let mut joined = all_referred(alloc, sources, text)?;
    joined.flatten();
    Ok(joined)
}

/// The name part for what the first eight tokens of a text refer to, each behind a space.
fn all_referred(alloc: Global, sources: &Sources<'_>, text: &str) -> Result<Piece, NoMemory>
    ensures { IfOk result (λ p. p ≡ piece_of (said_by_tokens sources.now text.now)) }
{
    let mut joined = Piece::empty(alloc);
    let mut rest = text;
    for _ in 0..MAX_REFERENCES {
        let Some((token, after)) = first_token(rest) else {
            return Ok(joined);
        };
        push_token(sources, token, &mut joined)?;
        rest = after;
    }
    Ok(joined)
}

/// Adds a space, and what a token refers to, if it does.
fn push_token(sources: &Sources<'_>, token: &str, into: &mut Piece) -> Result<(), NoMemory>
    ensures { OnOk result ((before : Chars) → into.old ≡ piece_of before → into.new ≡ piece_of (before ++ 32 ∷ said_by_token sources.now token.now)) }
{
    pieces_tell();
    into.push(" ")?;
    match sources.first(token) {
        Some(id) => sources.add_said(id, into),
        None => Ok(()),
    }
}
