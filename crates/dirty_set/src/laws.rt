//! What marks cover.
ghost use Rattle.std.specs.Prelude.{◌≡◌, ◌≢◌, ℕ, true, None};
ghost use Rattle.ax_base.specs.Document.{Document, has, root};
ghost use Rattle.ax_base.specs.Trees.{IsTree};
ghost use Rattle.ax_dom.specs.Changes.{edited};
ghost use Rattle.ax_dom.specs.Refusals.{edit_cause};
ghost use Rattle.ax_dom.specs.Used.{is_used};
ghost use Rattle.dirty_set.specs.Reach.{Marked, joined_marks};
ghost use Rattle.dirty_set.specs.Marking.{marked};
ghost use Rattle.dirty_set.specs.Covers.{Covers};

use ax_dom::{Dom, Edit};

/// Marks that cover what differs from a flushed document go on to do so, with the marks of an edit that nothing
/// refuses. It does nothing: it is a law.
pub fn marks_cover(old: &Dom, now: &Dom, e: &Edit)
    requires was_tree { IsTree old.now }
    requires is_tree { IsTree now.now }
    requires inserted { (n : ℕ) → has old.now n ≡ true → n ≢ root → is_used old.now n ≡ true }
    requires free { edit_cause old.now e.now ≡ None }
    requires leads { now.now ≡ edited old.now e.now }
    ensures { (flushed : Document) (earlier : Marked) → Covers flushed old.now earlier → Covers flushed now.now (joined_marks earlier (marked old.now now.now e.now)) }
{}
