//! What an edit makes of the document.
ghost use Rattle.std.specs.Prelude.{◌≡◌, ◌≢◌, nat_eq, OnOk, OnErr, None, IsTrue, false};
ghost use Rattle.std.specs.List.{list_any};
ghost use Rattle.ax_base.specs.Document.{root, has, body};
ghost use Rattle.ax_dom.specs.Bodies.{body_after};
ghost use Rattle.ax_dom.specs.Bounds.{EditKeepsBounds};
ghost use Rattle.ax_dom.specs.Changes.{inserted, removed, moved, focus_outside, with_body, with_focus, edited};
ghost use Rattle.ax_dom.specs.Refusals.{MayInsert, MayMove, may_focus, edit_cause, is_too_long, has_wrong_runs};

use super::{Dom, NO_FRAME};
use crate::cell::{Cell, NodeEntry};
use crate::edit::Edit;
use crate::node_map::copy_with_moved;
use ax_base::{Body, Ids, NoMemory, ObjId, Runs};
use std::alloc::Global;

impl Dom {
    /// Does an edit that nothing refuses, so that only memory can be wanting: then the document is unchanged. The texts
    /// and attributes of the edit become the document's. Its rectangles are within bounds.
    pub fn apply_accepted(&mut self, alloc: Global, e: Edit) -> Result<(), NoMemory>
        requires free { edit_cause self.old e ≡ None }
        requires within { EditKeepsBounds e }
        ensures ok { OnOk result (self.new ≡ edited self.old e) }
        ensures err { OnErr result (self.new ≡ self.old) }
    {
        match e {
            Edit::InsertElement {
                id,
                into,
                before,
                tag,
                attrs,
            } => {
                let body = Body::Element {
                    tag,
                    attrs,
                    frame: NO_FRAME,
                };
                self.insert(alloc, id, into, &before, body)
            }
            Edit::InsertText {
                id,
                into,
                before,
                chars,
            } => {
                let body = Body::Words {
                    chars,
                    runs: Runs::new(alloc),
                };
                self.insert(alloc, id, into, &before, body)
            }
            Edit::Remove(id) => self.remove(alloc, id),
            Edit::Move { id, into, before } => self.move_node(alloc, id, into, &before),
            Edit::Chars { id, .. }
            | Edit::Set { id, .. }
            | Edit::Unset { id, .. }
            | Edit::SetRuns { id, .. }
            | Edit::Frame { id, .. } => self.amend(alloc, id, e),
            Edit::Focus(id) => {
                self.set_focus(&id);
                Ok(())
            }
        }
    }

    /// Inserts a node that nothing refuses. At an error nothing changes.
    fn insert(
        &mut self,
        alloc: Global,
        id: ObjId,
        into: ObjId,
        before: &Option<ObjId>,
        body: Body,
    ) -> Result<(), NoMemory>
        requires { MayInsert self.old id into before.now body }
        ensures ok { OnOk result (self.new ≡ inserted self.old id into before.now body) }
        ensures err { OnErr result (self.new ≡ self.old) }
    {
        let cell = Cell {
            id,
            parent: Some(into),
            depth: self.depth_of(into) + 1,
            body,
        };
        let children = Ids::new(alloc);
        self.used.add(id)?;
        match self
            .entries
            .insert_child(id, NodeEntry { cell, children }, into, before)
        {
            Ok(()) => Ok(()),
            Err(e) => {
                self.used.remove(id);
                Err(e)
            }
        }
    }

    /// Does an edit that changes a node alone, and that nothing refuses. At an error nothing changes.
    fn amend(&mut self, alloc: Global, id: ObjId, e: Edit) -> Result<(), NoMemory>
        requires known { IsTrue (has self.old id) }
        requires short { is_too_long e ≡ false }
        requires runs { has_wrong_runs e (body self.old id) ≡ false }
        requires within { EditKeepsBounds e }
        ensures ok { OnOk result (self.new ≡ with_body self.old id (body_after e (body self.old id))) }
        ensures err { OnErr result (self.new ≡ self.old) }
    {
        self.entries.amend(alloc, id, e)?;
        Ok(())
    }

    /// Takes out a node and all that is below it. At an error nothing changes.
    fn remove(&mut self, alloc: Global, id: ObjId) -> Result<(), NoMemory>
        requires known { IsTrue (has self.old id) }
        requires apart { id ≢ root }
        ensures ok { OnOk result (self.new ≡ removed self.old id) }
        ensures err { OnErr result (self.new ≡ self.old) }
    {
        let mut gone = Ids::new(alloc);
        self.push_subtree(id, &mut gone)?;
        let from = self.parent_of(id);
        let focus = focus_without(&self.focus(), gone.as_slice());
        self.entries.unlink_child(&from, id);
        self.entries.remove_all(gone.as_slice());
        self.focus = focus;
        Ok(())
    }

    /// Moves a node and all that is below it, where nothing refuses it. At an error nothing changes.
    fn move_node(
        &mut self,
        alloc: Global,
        id: ObjId,
        into: ObjId,
        before: &Option<ObjId>,
    ) -> Result<(), NoMemory>
        requires { MayMove self.old id into before.now }
        ensures ok { OnOk result (self.new ≡ moved self.old id into before.now) }
        ensures err { OnErr result (self.new ≡ self.old) }
    {
        let mut whole = Ids::new(alloc);
        self.push_subtree(id, &mut whole)?;
        let list = copy_with_moved(alloc, self.children_of(into), before, id)?;
        let base = u32::from(self.depth_of(into)) + 1;
        let top = u32::from(self.depth_of(id));
        let from = self.parent_of(id);
        self.entries.relink_child(&from, id, into, list);
        self.entries.set_parent(id, into);
        self.entries.rebase_depths(whole.as_slice(), base, top);
        Ok(())
    }

    /// Focuses a node, or none.
    fn set_focus(&mut self, id: &Option<ObjId>)
        requires { IsTrue (may_focus self.old id.now) }
        ensures { self.new ≡ with_focus self.old id.now }
    {
        self.focus = *id;
    }
}

/// The focused node, or none where it is among some that go.
fn focus_without(focus: &Option<ObjId>, gone: &[ObjId]) -> Option<ObjId>
    ensures { result ≡ focus_outside gone.now focus.now }
{
    match focus {
        Some(id) if !is_among(*id, gone) => Some(*id),
        _ => None,
    }
}

/// Whether an id is among some.
fn is_among(id: ObjId, ids: &[ObjId]) -> bool
    ensures { result ≡ list_any (nat_eq id) ids.now }
{
    ids.iter().any(|x| id.0 == x.0)
}
