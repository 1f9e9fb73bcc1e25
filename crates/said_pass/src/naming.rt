//! What a node is called, from what its children say as parts of its name.
ghost use Rattle.std.specs.Prelude.{◌≡◌, ◌+◌, ◌==◌, true, IfOk, codes};
ghost use Rattle.ax_base.specs.AccessibleNames.{content_text, name_of, description_of};
ghost use Rattle.ax_base.specs.Document.{has, body, text_of, root};
ghost use Rattle.ax_base.specs.Roles.{role_of};
ghost use Rattle.ax_base.specs.Trees.{IsTree};
ghost use Rattle.ax_names.specs.Pieces.{piece_of};
ghost use Rattle.ax_names.specs.Sessions.{referred_by};
ghost use Rattle.said_pass.specs.Saids.{node_name, is_title_name};

use crate::host_label::host_label;
use crate::labelledby::referred_by;
use crate::names::NodeName;
use crate::sources::Sources;
use ax_base::{Body, NoMemory, ObjId, Role, Steps, Text};
use ax_names::{Named, Piece, element_description, element_name, flat_and_cut, said_as_child};
use ax_roles::{node_hides, node_role};
use std::alloc::Global;
use std::sync::ledger::Ledger;

/// What a node is called.
pub(crate) fn name_node<L: Ledger>(
    alloc: Global,
    sources: &Sources<'_>,
    id: ObjId,
    content: Piece,
    steps: &mut Steps<L>,
) -> Result<NodeName, NoMemory>
    requires tree { IsTree sources.now }
    requires known { has sources.now id ≡ true }
    requires content { content ≡ piece_of (content_text sources.now id) }
    ensures value { IfOk result (λ name. name ≡ node_name sources.now id) }
    ensures counted { steps.new ≡ steps.old + 1 }
{
    match sources.dom().cell(id, steps) {
        Some(cell) => name_from(alloc, sources, id, &cell.body, content),
        None => Ok(NodeName {
            part: content,
            name: Text::new(alloc),
            description: Text::new(alloc),
        }),
    }
}

/// The same, of what the node is.
fn name_from(
    alloc: Global,
    sources: &Sources<'_>,
    id: ObjId,
    node: &Body,
    content: Piece,
) -> Result<NodeName, NoMemory>
    requires tree { IsTree sources.now }
    requires node { node.now ≡ body sources.now id }
    requires content { content ≡ piece_of (content_text sources.now id) }
    ensures { IfOk result (λ name. name ≡ node_name sources.now id) }
{
    let role = node_role(id, node);
    let referred = referred_by(alloc, sources, text_of(node, "aria-labelledby"))?;
    let named = node_named(alloc, sources, id, role, node, &referred, &content)?;
    let description = node_described(alloc, sources, id, node, named.by_title)?;
    let silent = node_hides(id, node);
    let part = said_as_child(alloc, silent, role, referred, node, content)?;
    Ok(NodeName {
        part,
        name: named.name,
        description,
    })
}

/// The value of an attribute of a node, or the empty text where it has none.
fn text_of<'a>(node: &'a Body, name: &str) -> &'a str
    ensures { result.now ≡ text_of name.now node.now }
{
    match node {
        Body::Element { attrs, .. } => attrs.text(name),
        Body::Words { .. } => "",
    }
}

/// The accessible name of a node.
fn node_named(
    alloc: Global,
    sources: &Sources<'_>,
    id: ObjId,
    role: Role,
    node: &Body,
    referred: &Piece,
    content: &Piece,
) -> Result<Named, NoMemory>
    requires role { role ≡ role_of (id == root) node.now }
    requires node { node.now ≡ body sources.now id }
    requires referred { referred.now ≡ piece_of (referred_by sources.now (text_of (codes "aria-labelledby") node.now)) }
    requires content { content.now ≡ piece_of (content_text sources.now id) }
    ensures name { IfOk result (λ named. named.name ≡ name_of sources.now id) }
    ensures by_title { IfOk result (λ named. named.by_title ≡ is_title_name sources.now id node.now) }
{
    match node {
        Body::Words { chars, .. } => {
            let name = flat_and_cut(alloc, chars.as_str())?;
            Ok(Named {
                name,
                by_title: false,
            })
        }
        Body::Element { tag, attrs, .. } => {
            let label = host_label(alloc, sources, id, tag.as_str(), attrs)?;
            element_name(alloc, role, attrs, referred, &label, content)
        }
    }
}

/// The accessible description of a node, where it is known whether its `title` names it.
fn node_described(
    alloc: Global,
    sources: &Sources<'_>,
    id: ObjId,
    node: &Body,
    by_title: bool,
) -> Result<Text, NoMemory>
    requires node { node.now ≡ body sources.now id }
    requires by_title { by_title ≡ is_title_name sources.now id node.now }
    ensures { IfOk result (λ t. t ≡ description_of sources.now id) }
{
    match node {
        Body::Words { .. } => Ok(Text::new(alloc)),
        Body::Element { attrs, .. } => {
            let referred = referred_by(alloc, sources, attrs.text("aria-describedby"))?;
            element_description(alloc, attrs, referred, by_title)
        }
    }
}
