//! What references say (AccName 1.2, section 4.3.2, step 2B, 'LabelledBy').
ghost use Rattle.std.specs.Prelude.{◌≡◌, ◌∷◌, ◌++◌, IfOk, OnOk, IsTrue};
ghost use Rattle.ax_base.specs.Characters.{Chars};
ghost use Rattle.ax_base.specs.Document.{has};
ghost use Rattle.ax_base.specs.References.{referred_node, referred_text};
ghost use Rattle.ax_names.specs.Pieces.{all_apart};
ghost use Rattle.ax_names.specs.Sessions.{AreSayingsOf, all_referred, referred_by};

use crate::gather::Gather;
use crate::hidden::is_hidden;
use crate::name_from_content::said;
use crate::scope::{Shown, Whole};
use crate::session::Sayings;
use ax_base::{NoMemory, ObjId, Steps, first_token};
use ax_dom::Dom;
use std::alloc::Global;
use std::sync::ledger::Ledger;

/// How many tokens of an attribute refer to something.
const MOST: u8 = 8;

/// Gathers what the first eight tokens of a text refer to, joined by single spaces.
pub(crate) fn referred_by<G: Gather, L: Ledger>(
    alloc: Global,
    dom: &Dom,
    sayings: &mut Sayings<G>,
    text: &str,
    steps: &mut Steps<L>,
) -> Result<G, NoMemory>
    requires sayings { AreSayingsOf G.of dom.now sayings.old }
    ensures value { IfOk result (λ p. p ≡ G.of (referred_by dom.now text.now)) }
    ensures sayings { OnOk result (AreSayingsOf G.of dom.now sayings.new) }
{
    let joined: G = all_referred(alloc, dom, sayings, text, steps)?;
    joined.into_flat(alloc)
}

/// Gathers what the first eight tokens of a text refer to, each behind a space.
fn all_referred<G: Gather, L: Ledger>(
    alloc: Global,
    dom: &Dom,
    sayings: &mut Sayings<G>,
    text: &str,
    steps: &mut Steps<L>,
) -> Result<G, NoMemory>
    requires sayings { AreSayingsOf G.of dom.now sayings.old }
    ensures value { IfOk result (λ p. p ≡ G.of (all_apart (all_referred dom.now text.now))) }
    ensures sayings { OnOk result (AreSayingsOf G.of dom.now sayings.new) }
{
    let mut joined: G = G::empty(alloc);
    let mut rest = text;
    for _ in 0..MOST {
        let Some((token, after)) = first_token(rest) else {
            return Ok(joined);
        };
        push_token(alloc, dom, sayings, token, &mut joined, steps)?;
        rest = after;
    }
    Ok(joined)
}

/// Adds a space, and what the node says that a token names, if there is one.
fn push_token<G: Gather, L: Ledger>(
    alloc: Global,
    dom: &Dom,
    sayings: &mut Sayings<G>,
    token: &str,
    into: &mut G,
    steps: &mut Steps<L>,
) -> Result<(), NoMemory>
    requires sayings { AreSayingsOf G.of dom.now sayings.old }
    ensures value { OnOk result ((before : Chars) → into.old ≡ G.of before → into.new ≡ G.of (before ++ 32 ∷ referred_text dom.now token.now)) }
    ensures sayings { OnOk result (AreSayingsOf G.of dom.now sayings.new) }
{
    let space: G = G::from_str(alloc, " ")?;
    into.append(&space)?;
    let found = sayings.first(alloc, dom, token, steps)?;
    match found {
        Some(id) => push_node(alloc, dom, sayings, id, into, steps),
        None => Ok(()),
    }
}

/// Adds what a node says that a reference names. The first call for a node gathers it, later ones look it up.
pub(crate) fn push_node<G: Gather, L: Ledger>(
    alloc: Global,
    dom: &Dom,
    sayings: &mut Sayings<G>,
    id: ObjId,
    into: &mut G,
    steps: &mut Steps<L>,
) -> Result<(), NoMemory>
    requires known { IsTrue (has dom.now id) }
    requires sayings { AreSayingsOf G.of dom.now sayings.old }
    ensures value { OnOk result ((before : Chars) → into.old ≡ G.of before → into.new ≡ G.of (before ++ referred_node dom.now id)) }
    ensures sayings { OnOk result (AreSayingsOf G.of dom.now sayings.new) }
{
    if let Some(said) = sayings.referred.get(id) {
        return into.append(said);
    }
    let said: G = referred_node(alloc, dom, id, steps)?;
    into.append(&said)?;
    sayings.referred.keep(id, said)
}

/// Gathers what a node says that a reference names, made flat. Of a node that is hidden, hidden parts count too.
fn referred_node<G: Gather, L: Ledger>(
    alloc: Global,
    dom: &Dom,
    id: ObjId,
    steps: &mut Steps<L>,
) -> Result<G, NoMemory>
    requires known { IsTrue (has dom.now id) }
    ensures { IfOk result (λ p. p ≡ G.of (referred_node dom.now id)) }
{
    if is_hidden(dom, id, steps) {
        let all: G = said(alloc, dom, &mut Whole {}, id, steps)?;
        return all.into_flat(alloc);
    }
    let shown: G = said(alloc, dom, &mut Shown {}, id, steps)?;
    shown.into_flat(alloc)
}
