//! The places of the text objects.
ghost use Rattle.std.specs.Prelude.{◌≡◌, IsTrue, length};
ghost use Rattle.ax_record.specs.ObjectTrees.{IsObjectTree};
ghost use Rattle.ax_record.specs.Tree.{has_object};
ghost use Rattle.text_order.specs.Texts.{earlier_texts, place_of};

use crate::prior_text;
use ax_base::ObjId;
use ax_record::TreeView;

/// The place of a text object among the text objects in preorder, counted from 0, or `None` of what is no text object of the
/// tree. It takes no memory, and goes over the texts before: where k of them stand under one parent, it makes up to k² / 2
/// comparisons of ids.
pub fn place<T: TreeView>(t: &T, id: ObjId) -> Option<u32>
    ensures { result ≡ place_of (T.tree t.now) id }
{
    let Some(object) = t.find(id) else {
        return None;
    };
    if object.text.is_some() {
        return Some(texts_before(t, id));
    }
    None
}

/// How many text objects stand before an object.
fn texts_before<T: TreeView>(t: &T, id: ObjId) -> u32
    requires known { IsTrue (has_object (T.tree t.now) id) }
    requires is_tree { IsObjectTree (T.tree t.now) }
    ensures { result ≡ length (earlier_texts (T.tree t.now) id) }
{
    let mut count = 0u32;
    let mut at = id;
    while let Some(prior) = prior_text(t, at) {
        count += 1;
        at = prior;
    }
    count
}
