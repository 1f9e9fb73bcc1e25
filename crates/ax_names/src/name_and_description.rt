//! Accessible names and descriptions (AccName 1.2, sections 4.1 and 4.2).
ghost use Rattle.std.specs.Prelude.{◌≡◌, ◌==◌, IfOk, OnOk, codes};
ghost use Rattle.ax_base.specs.Characters.{Chars};
ghost use Rattle.ax_base.specs.Document.{root};
ghost use Rattle.ax_base.specs.Roles.{role_of};
ghost use Rattle.ax_base.specs.Values.{text_in};
ghost use Rattle.ax_base.specs.AccessibleNames.{name_of, description_of};
ghost use Rattle.ax_dom.specs.NodeMaps.{cell_of};
ghost use Rattle.ax_names.specs.Pieces.{piece_of};
ghost use Rattle.ax_names.specs.OwnTexts.{is_settled, described_from};
ghost use Rattle.ax_names.specs.Sessions.{AreNamesOf, referred_by, named_by};

use crate::aria_labelledby::referred_by;
use crate::host_language_label::host_label;
use crate::naming::{Named, element_description, element_name, flat_and_cut};
use crate::pieces::Piece;
use crate::pieces_tell;
use crate::session::Names;
use crate::with_references::content;
use ax_base::{Attrs, Body, NoMemory, ObjId, Role, Steps, Text, is_blank};
use ax_dom::{Cell, Dom};
use ax_roles::{name_prohibited, names_from_content};
use std::alloc::Global;
use std::sync::ledger::Ledger;

impl Names {
    /// The accessible name of a node of a role, at most 512 characters long.
    pub fn name_of<L: Ledger>(
        &mut self,
        alloc: Global,
        dom: &Dom,
        cell: &Cell,
        role: Role,
        steps: &mut Steps<L>,
    ) -> Result<Text, NoMemory>
        requires cell { cell.now ≡ cell_of dom.now cell.now.id }
        requires role { role ≡ role_of (cell.now.id == root) cell.now.body }
        requires names { AreNamesOf dom.now self.old }
        ensures value { IfOk result (λ t. t ≡ name_of dom.now cell.now.id) }
        ensures names { OnOk result (AreNamesOf dom.now self.new) }
    {
        match &cell.body {
            Body::Words { chars, .. } => flat_and_cut(alloc, chars.as_str()),
            Body::Element { tag, attrs, .. } => {
                let named = element_named(
                    alloc,
                    dom,
                    self,
                    cell.id,
                    role,
                    tag.as_str(),
                    attrs,
                    steps,
                )?;
                Ok(named.name)
            }
        }
    }

    /// The accessible description of a node of a role, at most 512 characters long.
    pub fn description_of<L: Ledger>(
        &mut self,
        alloc: Global,
        dom: &Dom,
        cell: &Cell,
        role: Role,
        steps: &mut Steps<L>,
    ) -> Result<Text, NoMemory>
        requires cell { cell.now ≡ cell_of dom.now cell.now.id }
        requires role { role ≡ role_of (cell.now.id == root) cell.now.body }
        requires names { AreNamesOf dom.now self.old }
        ensures value { IfOk result (λ t. t ≡ description_of dom.now cell.now.id) }
        ensures names { OnOk result (AreNamesOf dom.now self.new) }
    {
        let (_, description) = self.name_and_description(alloc, dom, cell, role, steps)?;
        Ok(description)
    }

    /// The accessible name and the accessible description of a node of a role, each at most 512 characters long.
    pub fn name_and_description<L: Ledger>(
        &mut self,
        alloc: Global,
        dom: &Dom,
        cell: &Cell,
        role: Role,
        steps: &mut Steps<L>,
    ) -> Result<(Text, Text), NoMemory>
        requires cell { cell.now ≡ cell_of dom.now cell.now.id }
        requires role { role ≡ role_of (cell.now.id == root) cell.now.body }
        requires names { AreNamesOf dom.now self.old }
        ensures name { IfOk result (λ both. both.0 ≡ name_of dom.now cell.now.id) }
        ensures description { IfOk result (λ both. both.1 ≡ description_of dom.now cell.now.id) }
        ensures names { OnOk result (AreNamesOf dom.now self.new) }
    {
        match &cell.body {
            Body::Words { chars, .. } => {
                let name = flat_and_cut(alloc, chars.as_str())?;
                Ok((name, Text::new(alloc)))
            }
            Body::Element { tag, attrs, .. } => {
                let named = element_named(
                    alloc,
                    dom,
                    self,
                    cell.id,
                    role,
                    tag.as_str(),
                    attrs,
                    steps,
                )?;
                let description = element_described(
                    alloc,
                    dom,
                    self,
                    attrs,
                    named.by_title,
                    steps,
                )?;
                Ok((named.name, description))
            }
        }
    }
}

/// The accessible name of an element of a role. What comes after a text that names it is not put together.
fn element_named<L: Ledger>(
    alloc: Global,
    dom: &Dom,
    names: &mut Names,
    id: ObjId,
    role: Role,
    tag: &str,
    attrs: &Attrs,
    steps: &mut Steps<L>,
) -> Result<Named, NoMemory>
    requires names { AreNamesOf dom.now names.old }
    ensures value { IfOk result (λ named. named ≡ named_by dom.now id role tag.now attrs.now) }
    ensures names { OnOk result (AreNamesOf dom.now names.new) }
{
    let referred: Piece = referred_by(
        alloc,
        dom,
        &mut names.sayings,
        attrs.text("aria-labelledby"),
        steps,
    )?;
    let nothing = Piece::empty(alloc);
    if is_settled(role, attrs, &referred) {
        return element_name(alloc, role, attrs, &referred, &nothing, &nothing);
    }
    let label = host_label(alloc, dom, names, id, tag, attrs, steps)?;
    if !names_from_content(role) {
        return element_name(alloc, role, attrs, &referred, &label, &nothing);
    }
    let below = content(alloc, dom, &mut names.sayings, id, steps)?;
    element_name(alloc, role, attrs, &referred, &label, &below)
}

/// Whether it is settled what names an element of a role before its host language and its children are asked: it may not be
/// named, or its references or its `aria-label` name it.
fn is_settled(role: Role, attrs: &Attrs, referred: &Piece) -> bool
    ensures { (r : Chars) → referred.now ≡ piece_of r → result ≡ is_settled role attrs.now r }
{
    pieces_tell();
    name_prohibited(role) || !referred.is_blank() || !is_blank(attrs.text("aria-label"))
}

/// The accessible description of an element, where it is known whether its `title` names it.
fn element_described<L: Ledger>(
    alloc: Global,
    dom: &Dom,
    names: &mut Names,
    attrs: &Attrs,
    by_title: bool,
    steps: &mut Steps<L>,
) -> Result<Text, NoMemory>
    requires names { AreNamesOf dom.now names.old }
    ensures value { IfOk result (λ t. t ≡ described_from attrs.now (referred_by dom.now (text_in (codes "aria-describedby") attrs.now)) by_title) }
    ensures names { OnOk result (AreNamesOf dom.now names.new) }
{
    let referred: Piece = referred_by(
        alloc,
        dom,
        &mut names.sayings,
        attrs.text("aria-describedby"),
        steps,
    )?;
    element_description(alloc, attrs, referred, by_title)
}
