//! Taking a text apart at its white space.
ghost use Rattle.std.specs.Prelude.{◌≡◌, ◌<◌, ◌∷◌, [], length, position, unwrap_or, MatchOption};
ghost use Rattle.ax_base.specs.Characters.{is_white, tokens};

/// The first token of a text, and what comes after it, or `None` where there is none.
pub fn first_token(text: &str) -> Option<(&str, &str)>
    ensures tokens { MatchOption result (tokens text.now ≡ []) (λ p. tokens text.now ≡ p.0.now ∷ tokens p.1.now) }
    ensures less { MatchOption result (tokens text.now ≡ []) (λ p. length p.1.now < length text.now) }
{
    let rest = text.trim_ascii_start();
    if rest.is_empty() {
        return None;
    }
    let len = piece_len(rest.as_bytes());
    Some(rest.split_at(len))
}

/// How many bytes stand before the first white space.
fn piece_len(text: &[u8]) -> usize
    ensures { result ≡ unwrap_or (position is_white text.now) (length text.now) }
{
    text.iter()
        .position(|b| b.is_ascii_whitespace())
        .unwrap_or(text.len())
}
