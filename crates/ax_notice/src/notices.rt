//! The notices from one tree to another.
ghost use Rattle.std.specs.Prelude.{◌≡◌, ◌++◌, ◌∷◌, [], if◌then◌else◌, nat_eq, IfOk, OnOk, option_copied, bytes_eq};
ghost use Rattle.ax_base.specs.declared.notices.NoticeKind.TheVariants.{Focus};
ghost use Rattle.std.specs.List.{flat_map};
ghost use Rattle.std.specs.Option.{option_eq};
ghost use Rattle.ax_record.specs.Tree.{record_at, made_at};
ghost use Rattle.ax_notice.specs.Notices.{is_same_in, told_at, kind_notices, told_kinds, live_of, live_above, is_region, live_at, focus_notice, notices_among, notices_between};
ghost use Rattle.ax_notice.specs.Candidates.{AreCandidates};

use crate::leaves::same_leaf_texts;
use ax_base::{Live, Moment, NoMemory, Notice, NoticeKind, Notices, ObjId};
use ax_record::{Record, TreeView, rising_ids, same_optional_text};
use std::alloc::Global;

/// The kinds of notices of an object of both trees, in their order.
const TOLD: [NoticeKind; 6] = [
    NoticeKind::Children,
    NoticeKind::Name,
    NoticeKind::Value,
    NoticeKind::Checked,
    NoticeKind::Expanded,
    NoticeKind::Selected,
];

/// The notices from one tree to another.
pub fn notices_between<A: TreeView, B: TreeView>(
    alloc: Global,
    a: &A,
    b: &B,
    moment: Moment,
) -> Result<Notices, NoMemory>
    ensures { IfOk result (λ notices. notices ≡ notices_between (A.tree a.now) (B.tree b.now) moment) }
{
    let ids = rising_ids(alloc, b)?;
    notices_of(alloc, a, b, moment, ids.as_slice())
}

/// The notices from one tree to another, where only some ids are looked at. The ids have each object that differs, and
/// with each object all above it.
pub fn notices_among<A: TreeView, B: TreeView>(
    alloc: Global,
    a: &A,
    b: &B,
    moment: Moment,
    ids: &[ObjId],
) -> Result<Notices, NoMemory>
    requires { AreCandidates (A.tree a.now) (B.tree b.now) ids.now }
    ensures { IfOk result (λ notices. notices ≡ notices_between (A.tree a.now) (B.tree b.now) moment) }
{
    let _root = b.find(b.root());
    let notices = notices_of(alloc, a, b, moment, ids)?;
    Ok(notices)
}

/// The notices of some ids.
fn notices_of<A: TreeView, B: TreeView>(
    alloc: Global,
    a: &A,
    b: &B,
    moment: Moment,
    ids: &[ObjId],
) -> Result<Notices, NoMemory>
    ensures { IfOk result (λ notices. notices ≡ notices_among moment (A.tree a.now) (B.tree b.now) ids.now) }
{
    let mut out = Notices::new(alloc);
    push_focus(a.focus(), b.focus(), moment, &mut out)?;
    push_kinds(a, b, moment, ids, &TOLD, &mut out)?;
    push_live(alloc, a, b, moment, ids, &mut out)?;
    Ok(out)
}

/// The focus, where it differs.
fn push_focus(
    old: Option<ObjId>,
    new: Option<ObjId>,
    moment: Moment,
    out: &mut Notices,
) -> Result<(), NoMemory>
    ensures { OnOk result (out.new ≡ out.old ++ (if option_eq nat_eq old new then [] else record { moment = moment; kind = Focus; id = new } ∷ [])) }
{
    if old != new {
        out.push(Notice {
            moment,
            kind: NoticeKind::Focus,
            id: new,
        })?;
    }
    Ok(())
}

/// Kind by kind, those of some objects.
fn push_kinds<A: TreeView, B: TreeView>(
    a: &A,
    b: &B,
    moment: Moment,
    ids: &[ObjId],
    kinds: &[NoticeKind],
    out: &mut Notices,
) -> Result<(), NoMemory>
    ensures { OnOk result (out.new ≡ out.old ++ flat_map (kind_notices moment (A.tree a.now) (B.tree b.now) ids.now) kinds.now) }
{
    for kind in kinds {
        push_kind(a, b, moment, ids, *kind, out)?;
    }
    Ok(())
}

/// Those of one kind of some objects.
#[tactic(auto, unfolding(crate::specs::Notices::kind_notices))]
fn push_kind<A: TreeView, B: TreeView>(
    a: &A,
    b: &B,
    moment: Moment,
    ids: &[ObjId],
    kind: NoticeKind,
    out: &mut Notices,
) -> Result<(), NoMemory>
    ensures { OnOk result (out.new ≡ out.old ++ kind_notices moment (A.tree a.now) (B.tree b.now) ids.now kind) }
{
    for id in ids {
        push_told(a.find(*id), b.find(*id), moment, *id, kind, out)?;
    }
    Ok(())
}

/// That of one kind of one object.
fn push_told(
    old: Option<&Record>,
    new: Option<&Record>,
    moment: Moment,
    id: ObjId,
    kind: NoticeKind,
    out: &mut Notices,
) -> Result<(), NoMemory>
    ensures { OnOk result (out.new ≡ out.old ++ told_at moment kind (option_copied old.entry) (option_copied new.entry) id) }
{
    let Some(old) = old else {
        return Ok(());
    };
    let Some(new) = new else {
        return Ok(());
    };
    if !is_same_in(kind, old, new) {
        out.push(Notice {
            moment,
            kind,
            id: Some(id),
        })?;
    }
    Ok(())
}

/// Whether what a kind tells of an object is the same.
fn is_same_in(kind: NoticeKind, old: &Record, new: &Record) -> bool
    ensures { result ≡ is_same_in kind old.now new.now }
{
    match kind {
        NoticeKind::Children => old.kids.as_slice() == new.kids.as_slice(),
        NoticeKind::Name => old.name.is(new.name.as_str()),
        NoticeKind::Value => same_optional_text(&old.value, &new.value),
        NoticeKind::Checked => old.states.checked == new.states.checked,
        NoticeKind::Expanded => old.states.expanded == new.states.expanded,
        NoticeKind::Selected => old.states.selected == new.states.selected,
        NoticeKind::Focus | NoticeKind::Live => true,
    }
}

/// The live regions among some objects whose leaf texts differ.
fn push_live<A: TreeView, B: TreeView>(
    alloc: Global,
    a: &A,
    b: &B,
    moment: Moment,
    ids: &[ObjId],
    out: &mut Notices,
) -> Result<(), NoMemory>
    ensures { OnOk result (out.new ≡ out.old ++ flat_map (live_at moment (A.tree a.now) (B.tree b.now)) ids.now) }
{
    for id in ids {
        push_region(alloc, a, b, moment, *id, out)?;
    }
    Ok(())
}

/// A live region whose leaf texts differ.
fn push_region<A: TreeView, B: TreeView>(
    alloc: Global,
    a: &A,
    b: &B,
    moment: Moment,
    id: ObjId,
    out: &mut Notices,
) -> Result<(), NoMemory>
    ensures { OnOk result (out.new ≡ out.old ++ live_at moment (A.tree a.now) (B.tree b.now) id) }
{
    if !is_region(b, id) {
        return Ok(());
    }
    if !same_leaf_texts(alloc, a, b, id)? {
        out.push(Notice {
            moment,
            kind: NoticeKind::Live,
            id: Some(id),
        })?;
    }
    Ok(())
}

/// Whether an object is a live region.
fn is_region<T: TreeView>(t: &T, id: ObjId) -> bool
    ensures { result ≡ is_region (T.tree t.now) id }
{
    let live = live_of(t, id);
    live != Live::Off && live != live_above(t, id)
}

/// The live of an object; off where there is none.
fn live_of<T: TreeView>(t: &T, id: ObjId) -> Live
    ensures { result ≡ live_of (T.tree t.now) id }
{
    match t.find(id) {
        None => Live::Off,
        Some(object) => object.live,
    }
}

/// The live of an object's parent; off where there is none.
fn live_above<T: TreeView>(t: &T, id: ObjId) -> Live
    ensures { result ≡ live_above (T.tree t.now) id }
{
    let Some(object) = t.find(id) else {
        return Live::Off;
    };
    match object.parent {
        None => Live::Off,
        Some(above) => live_of(t, above),
    }
}
