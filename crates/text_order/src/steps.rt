//! The steps from text to text.
ghost use Rattle.std.specs.Prelude.{◌≡◌, ◌∷◌, [], Bool, IfOk, IfSome, IsTrue, MatchOption, is_some, find};
ghost use Rattle.ax_record.specs.declared.record.Record.{Record};
ghost use Rattle.ax_record.specs.Tree.{has_object, preorder};
ghost use Rattle.ax_record.specs.Orders.{after};
ghost use Rattle.text_order.specs.Texts.{is_text, later_texts, earlier_texts};

use ax_base::ObjId;
use ax_record::{Record, TreeView, Wanted, first_after, last_before};
use std::convert::Infallible;

/// Text objects are looked for.
#[derive(Drop)]
struct Texts;

impl Wanted for Texts {
    type Error = Infallible;

    ghost wants = { λ s r. is_some r.text };

    fn is_wanted(&self, object: &Record) -> Result<bool, Infallible> {
        Ok(object.text.is_some())
    }
}

/// The text object that comes next after an object in preorder, or `None` where none does. It takes no memory.
///
/// It looks for the object among its siblings, and for each of its ancestors among theirs: so a loop over k texts under one
/// parent makes up to k² / 2 comparisons of ids.
pub fn next_text<T: TreeView>(t: &T, id: ObjId) -> Option<ObjId>
    requires { IsTrue (has_object (T.tree t.now) id) }
    ensures going { MatchOption result (later_texts (T.tree t.now) id ≡ []) (λ next. later_texts (T.tree t.now) id ≡ next ∷ later_texts (T.tree t.now) next) }
    ensures known { IfSome result (λ next. IsTrue (has_object (T.tree t.now) next)) }
{
    match first_after(t, &Texts, id) {
        Ok(found) => found,
        Err(never) => match never {},
    }
}

/// The text object that comes last before an object in preorder, or `None` where none does: the first of those before it, in
/// reverse. It takes no memory, and costs what `next_text` does.
pub fn prior_text<T: TreeView>(t: &T, id: ObjId) -> Option<ObjId>
    requires { IsTrue (has_object (T.tree t.now) id) }
    ensures going { MatchOption result (earlier_texts (T.tree t.now) id ≡ []) (λ prior. earlier_texts (T.tree t.now) id ≡ prior ∷ earlier_texts (T.tree t.now) prior) }
    ensures known { IfSome result (λ prior. IsTrue (has_object (T.tree t.now) prior)) }
{
    match last_before(t, &Texts, id) {
        Ok(found) => found,
        Err(never) => match never {},
    }
}
