//! What is told of an object, from its node alone.
ghost use Rattle.std.specs.Prelude.{◌≡◌, ◌==◌, IfOk, OnOk, option_copied};
ghost use Rattle.ax_base.specs.Document.{root};
ghost use Rattle.ax_base.specs.Trees.{IsTree};
ghost use Rattle.ax_base.specs.Roles.{role_of};
ghost use Rattle.ax_base.specs.States.{states_by, level_by, live_by, value_by};
ghost use Rattle.ax_base.specs.Context.{live_at};
ghost use Rattle.ax_base.specs.Kids.{kids};
ghost use Rattle.ax_base.specs.Rects.{HasRectsWithin};
ghost use Rattle.ax_dom.specs.NodeMaps.{cell_of};
ghost use Rattle.ax_fresh.specs.Contents.{record_by};
ghost use Rattle.ax_names.specs.Sessions.{AreNamesOf};
ghost use Rattle.ax_record.specs.Records.{record_of, object_parent, chars_of, runs_of};

use crate::frames::frame_of;
use ax_base::{Body, Ids, Live, NoMemory, ObjId, Role, Runs, States, Steps, Text};
use ax_dom::{Cell, Dom};
use ax_names::Names;
use ax_record::Record;
use ax_states::live_set_by;
use std::alloc::Global;
use std::sync::ledger::Ledger;

/// The record of an object, with what hangs on it.
pub fn record_of<L: Ledger>(
    alloc: Global,
    dom: &Dom,
    names: &mut Names,
    cell: &Cell,
    role: Role,
    live: Live,
    parent: Option<ObjId>,
    below: Ids,
    steps: &mut Steps<L>,
) -> Result<Record, NoMemory>
    requires tree { IsTree dom.now }
    requires cell { cell.now ≡ cell_of dom.now cell.now.id }
    requires role { role ≡ role_of (cell.now.id == root) cell.now.body }
    requires live { live ≡ live_at dom.now cell.now.id }
    requires parent { parent ≡ object_parent dom.now cell.now.id }
    requires kids { below ≡ kids dom.now cell.now.id }
    requires names { AreNamesOf dom.now names.old }
    ensures value { IfOk result (λ r. r ≡ record_of dom.now cell.now.id) }
    ensures names { OnOk result (AreNamesOf dom.now names.new) }
{
    let (name, description) = names.name_and_description(alloc, dom, cell, role, steps)?;
    let called = Called { name, description };
    record_called(alloc, cell, role, live, parent, below, called)
}

/// What an object is called.
#[derive(Drop)]
pub struct Called {
    /// The accessible name.
    pub name: Text,
    /// The accessible description.
    pub description: Text,
}

/// The record of an object that is called so, with what hangs on it.
pub fn record_called(
    alloc: Global,
    cell: &Cell,
    role: Role,
    live: Live,
    parent: Option<ObjId>,
    below: Ids,
    called: Called,
) -> Result<Record, NoMemory>
    requires { HasRectsWithin cell.now.body }
    ensures { IfOk result (λ r. r ≡ record_by cell.now role live parent below called.name called.description) }
{
    let Called { name, description } = called;
    Ok(Record {
        id: cell.id,
        role,
        name,
        description,
        value: value_of(alloc, role, &cell.body)?,
        states: states_of(role, &cell.body),
        level: level_of(role, &cell.body),
        live,
        frame: frame_of(&cell.body),
        text: chars_of(alloc, &cell.body)?,
        runs: runs_of(alloc, &cell.body)?,
        parent,
        kids: below,
    })
}

/// The states of a node of a role; a text has none.
pub(crate) fn states_of(role: Role, node: &Body) -> States
    ensures { result ≡ states_by role node.now }
{
    match node {
        Body::Element { tag, attrs, .. } => ax_states::states_of(role, tag.as_str(), attrs),
        Body::Words { .. } => States::NONE,
    }
}

/// The level of a node of a role; a text has none.
pub(crate) fn level_of(role: Role, node: &Body) -> Option<u16>
    ensures { result ≡ level_by role node.now }
{
    match node {
        Body::Element { tag, attrs, .. } => ax_states::level_of(role, tag.as_str(), attrs),
        Body::Words { .. } => None,
    }
}

/// The value of a node of a role; a text has none.
fn value_of(alloc: Global, role: Role, node: &Body) -> Result<Option<Text>, NoMemory>
    ensures { IfOk result (λ v. v ≡ value_by role node.now) }
{
    match node {
        Body::Element { tag, attrs, .. } => {
            copied(alloc, ax_states::value_of(role, tag.as_str(), attrs))
        }
        Body::Words { .. } => Ok(None),
    }
}

/// A text, copied where there is one.
fn copied(alloc: Global, text: Option<&Text>) -> Result<Option<Text>, NoMemory>
    ensures { IfOk result (λ t. t ≡ option_copied text.entry) }
{
    match text {
        Some(text) => Ok(Some(text.copy(alloc)?)),
        None => Ok(None),
    }
}

/// The live that a node of a role sets; a text sets none.
pub fn live_by(role: Role, node: &Body) -> Option<Live>
    ensures { result ≡ live_by role node.now }
{
    match node {
        Body::Element { attrs, .. } => live_set_by(role, attrs),
        Body::Words { .. } => None,
    }
}

/// The characters of a text.
fn chars_of(alloc: Global, node: &Body) -> Result<Option<Text>, NoMemory>
    ensures { IfOk result (λ t. t ≡ chars_of node.now) }
{
    match node {
        Body::Element { .. } => Ok(None),
        Body::Words { chars, .. } => Ok(Some(chars.copy(alloc)?)),
    }
}

/// The runs of a text.
fn runs_of(alloc: Global, node: &Body) -> Result<Runs, NoMemory>
    ensures { IfOk result (λ r. r ≡ runs_of node.now) }
{
    match node {
        Body::Element { .. } => Ok(Runs::new(alloc)),
        Body::Words { runs, .. } => runs.copy(alloc),
    }
}
