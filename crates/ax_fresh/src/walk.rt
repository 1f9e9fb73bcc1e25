//! The walk over a document that builds its tree.
ghost use Rattle.std.specs.Prelude.{◌≡◌, ◌++◌, ◌==◌, IfOk, OnOk, IsTrue, false, Contains, unwrap_or};
ghost use Rattle.std.specs.List.{flat_map};
ghost use Rattle.ax_base.specs.Document.{has, root, spot};
ghost use Rattle.ax_base.specs.Trees.{IsTree};
ghost use Rattle.ax_base.specs.Roles.{role_of, hides};
ghost use Rattle.ax_base.specs.States.{sets_live};
ghost use Rattle.ax_base.specs.Context.{is_out, is_shut, live_at};
ghost use Rattle.ax_base.specs.Kids.{kids, taken, objects};
ghost use Rattle.ax_dom.specs.NodeMaps.{cell_of};
ghost use Rattle.ax_record.specs.Records.{tree, object_parent};
ghost use Rattle.ax_names.specs.Sessions.{AreNamesOf};
ghost use Rattle.ax_fresh.specs.Gathering.{with_records, put_order, AreKidsOf};

use crate::content::{live_by, record_of};
use crate::focus::focused_object;
use ax_base::{Ids, Live, NoMemory, ObjId, Role, Steps};
use ax_dom::{Cell, Dom};
use ax_names::Names;
use ax_record::{FreshTree, RecordMap};
use ax_roles::{Inclusion, node_hides, node_inclusion, node_role, prunes};
use std::alloc::Global;
use std::sync::ledger::Ledger;

/// The tree of a document. It takes one walk that makes the records, and at the first reference one that indexes the ids.
pub fn build<L: Ledger>(
    alloc: Global,
    dom: &Dom,
    steps: &mut Steps<L>,
) -> Result<FreshTree, NoMemory>
    ensures { IfOk result (λ t. t ≡ tree dom.now) }
{
    let mut names = Names::new(alloc);
    let mut records = RecordMap::new(alloc);
    put_root(alloc, dom, &mut names, &mut records, steps)?;
    let focus = focused_object(dom, &records, steps);
    let tree = FreshTree::new(records, focus);
    Ok(tree)
}

/// Puts in the records of all objects below the root, and then that of the root.
fn put_root<L: Ledger>(
    alloc: Global,
    dom: &Dom,
    names: &mut Names,
    records: &mut RecordMap,
    steps: &mut Steps<L>,
) -> Result<(), NoMemory>
    requires names { AreNamesOf dom.now names.old }
    ensures tree { IsTree dom.now }
    ensures records { OnOk result (records.new ≡ with_records dom.now records.old (put_order dom.now root)) }
    ensures names { OnOk result (AreNamesOf dom.now names.new) }
{
    let Some(cell) = dom.cell(ObjId::ROOT, steps) else {
        return Ok(());
    };
    let role = node_role(cell.id, &cell.body);
    let live = live_by(role, &cell.body).unwrap_or(Live::Off);
    put_object(alloc, dom, cell, role, live, None, names, records, steps)
}

/// Puts in the records of all objects below an object, and then that of the object.
#[cycle(walk)]
fn put_object<L: Ledger>(
    alloc: Global,
    dom: &Dom,
    cell: &Cell,
    role: Role,
    live: Live,
    parent: Option<ObjId>,
    names: &mut Names,
    records: &mut RecordMap,
    steps: &mut Steps<L>,
) -> Result<(), NoMemory>
    requires tree { IsTree dom.now }
    requires object { Contains (objects dom.now) cell.now.id }
    requires cell { cell.now ≡ cell_of dom.now cell.now.id }
    requires role { role ≡ role_of (cell.now.id == root) cell.now.body }
    requires visible { is_out dom.now cell.now.id ≡ false }
    requires live { live ≡ live_at dom.now cell.now.id }
    requires parent { parent ≡ object_parent dom.now cell.now.id }
    requires names { AreNamesOf dom.now names.old }
    ensures records { OnOk result (records.new ≡ with_records dom.now records.old (put_order dom.now cell.now.id)) }
    ensures names { OnOk result (AreNamesOf dom.now names.new) }
{
    let id = cell.id;
    let shut = prunes(role);
    let mut below = Ids::new(alloc);
    gather_inside(
        alloc, dom, id, shut, live, id, &mut below, names, records, steps,
    )?;
    let object = record_of(alloc, dom, names, cell, role, live, parent, below, steps)?;
    records.put(object)
}

/// Adds the kids of a node to a list, and puts in the records of all objects at or below them. They hang on `above`.
/// A node that is shut has no kids.
#[cycle(walk)]
fn gather_inside<L: Ledger>(
    alloc: Global,
    dom: &Dom,
    node: ObjId,
    shut: bool,
    live: Live,
    above: ObjId,
    found: &mut Ids,
    names: &mut Names,
    records: &mut RecordMap,
    steps: &mut Steps<L>,
) -> Result<(), NoMemory>
    requires tree { IsTree dom.now }
    requires known { IsTrue (has dom.now node) }
    requires shut { shut ≡ is_shut dom.now node }
    requires live { live ≡ live_at dom.now node }
    requires hung { AreKidsOf dom.now above (kids dom.now node) }
    requires names { AreNamesOf dom.now names.old }
    ensures kids { OnOk result (found.new ≡ found.old ++ kids dom.now node) }
    ensures records { OnOk result (records.new ≡ with_records dom.now records.old (flat_map (put_order dom.now) (kids dom.now node))) }
    ensures names { OnOk result (AreNamesOf dom.now names.new) }
{
    if shut {
        return Ok(());
    }
    gather(alloc, dom, node, live, above, found, names, records, steps)
}

/// Adds the kids of a node to a list, and puts in the records of all objects at or below them. They hang on `above`.
#[cycle(walk)]
fn gather<L: Ledger>(
    alloc: Global,
    dom: &Dom,
    node: ObjId,
    live: Live,
    above: ObjId,
    found: &mut Ids,
    names: &mut Names,
    records: &mut RecordMap,
    steps: &mut Steps<L>,
) -> Result<(), NoMemory>
    requires known { IsTrue (has dom.now node) }
    requires visible { is_shut dom.now node ≡ false }
    requires live { live ≡ live_at dom.now node }
    requires hung { AreKidsOf dom.now above (kids dom.now node) }
    requires names { AreNamesOf dom.now names.old }
    ensures kids { OnOk result (found.new ≡ found.old ++ kids dom.now node) }
    ensures records { OnOk result (records.new ≡ with_records dom.now records.old (flat_map (put_order dom.now) (kids dom.now node))) }
    ensures names { OnOk result (AreNamesOf dom.now names.new) }
{
    for child in dom.children(node, steps) {
        gather_child(
            alloc, dom, *child, live, above, found, names, records, steps,
        )?;
    }
    Ok(())
}

/// Adds what a child gives to a list, and puts in the records of all objects at or below that: of itself, or, where it is
/// ignored, of its kids; a child that hides gives nothing. The live around it is that of its parent.
#[cycle(walk)]
fn gather_child<L: Ledger>(
    alloc: Global,
    dom: &Dom,
    child: ObjId,
    around: Live,
    above: ObjId,
    found: &mut Ids,
    names: &mut Names,
    records: &mut RecordMap,
    steps: &mut Steps<L>,
) -> Result<(), NoMemory>
    requires known { IsTrue (has dom.now child) }
    requires visible { is_out dom.now child ≡ hides (spot dom.now child) }
    requires around { live_at dom.now child ≡ unwrap_or (sets_live (spot dom.now child)) around }
    requires hung { AreKidsOf dom.now above (taken dom.now child) }
    requires names { AreNamesOf dom.now names.old }
    ensures kids { OnOk result (found.new ≡ found.old ++ taken dom.now child) }
    ensures records { OnOk result (records.new ≡ with_records dom.now records.old (flat_map (put_order dom.now) (taken dom.now child))) }
    ensures names { OnOk result (AreNamesOf dom.now names.new) }
{
    let Some(cell) = dom.cell(child, steps) else {
        return Ok(());
    };
    let role = node_role(child, &cell.body);
    let live = live_by(role, &cell.body).unwrap_or(around);
    let hidden = node_hides(child, &cell.body);
    match node_inclusion(child, role, &cell.body, hidden) {
        Inclusion::Excluded => Ok(()),
        Inclusion::Ignored => {
            let shut = prunes(role);
            gather_inside(
                alloc, dom, child, shut, live, above, found, names, records, steps,
            )
        }
        Inclusion::Included => {
            put_object(
                alloc,
                dom,
                cell,
                role,
                live,
                Some(above),
                names,
                records,
                steps,
            )?;
            found.push(child)
        }
    }
}
