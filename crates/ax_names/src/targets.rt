//! The elements that ids name, and those that label them.
ghost use Rattle.std.specs.Prelude.{◌≡◌, ◌++◌, ◌∷◌, [], List, ℕ, Some, None, false, if◌then◌else◌, IfOk, OnOk, bytes_eq};
ghost use Rattle.std.specs.Option.{option_map_or, option_or};
ghost use Rattle.std.specs.HashMap.{get_by_text};
ghost use Rattle.ax_base.specs.Characters.{Chars};
ghost use Rattle.ax_base.specs.Document.{Document, target};
ghost use Rattle.ax_base.specs.AccessibleNames.{first_label, is_label_for};
ghost use Rattle.ax_names.specs.Targets.{AreTargetsOf, AreFirstAmong, is_named};

use crate::order::tree_order;
use ax_base::{Body, NoMemory, ObjId, Steps};
use ax_dom::Dom;
use std::alloc::Global;
use std::collections::HashMap;
use std::sync::ledger::Ledger;

/// The first element of each id, and the first `label` for each, in tree order. It is made once for a document.
#[derive(Drop)]
pub struct Targets {
    ids: HashMap<String, ObjId>,
    labels: HashMap<String, ObjId>,
}

impl Targets {
    /// The index of a document. It takes one walk, and then reads what each node is once.
    pub fn new<L: Ledger>(
        alloc: Global,
        dom: &Dom,
        steps: &mut Steps<L>,
    ) -> Result<Targets, NoMemory>
        ensures { IfOk result (λ t. AreTargetsOf dom.now t) }
    {
        let nodes = tree_order(alloc, dom, steps)?;
        let mut targets = Targets {
            ids: HashMap::new(alloc),
            labels: HashMap::new(alloc),
        };
        for node in nodes.as_slice() {
            targets.add(alloc, dom, *node, steps)?;
        }
        Ok(targets)
    }

    /// The first element with that id, in tree order.
    pub fn first(&self, id: &str) -> Option<ObjId>
        ensures { (d : Document) → AreTargetsOf d self.now → result ≡ target d id.now }
    {
        self.ids.get(id).copied()
    }

    /// The first `label` for that id, in tree order.
    pub fn label(&self, id: &str) -> Option<ObjId>
        ensures { (d : Document) → AreTargetsOf d self.now → result ≡ first_label d id.now }
    {
        self.labels.get(id).copied()
    }

    /// Takes in a node that follows the others in tree order.
    fn add<L: Ledger>(
        &mut self,
        alloc: Global,
        dom: &Dom,
        node: ObjId,
        steps: &mut Steps<L>,
    ) -> Result<(), NoMemory>
        ensures { OnOk result ((before : List ℕ) → AreFirstAmong dom.now before self.old → AreFirstAmong dom.now (before ++ node ∷ []) self.new) }
    {
        let Some(cell) = dom.cell(node, steps) else {
            return Ok(());
        };
        keep_first(alloc, &mut self.ids, own_id(&cell.body), node)?;
        keep_first(alloc, &mut self.labels, labelled_id(&cell.body), node)
    }
}

/// Inserts `node` under `word`, unless there is no word or the key is taken.
fn keep_first(
    alloc: Global,
    kept: &mut HashMap<String, ObjId>,
    word: Option<&str>,
    node: ObjId,
) -> Result<(), NoMemory>
    ensures { OnOk result ((x : Chars) → get_by_text kept.new x ≡ option_or (get_by_text kept.old x) (if option_map_or (λ w. bytes_eq x w.now) word.entry false then Some node else None)) }
{
    let Some(word) = word else {
        return Ok(());
    };
    if kept.contains_key(word) {
        return Ok(());
    }
    let key = String::from_str(alloc, word)?;
    kept.insert(key, node)?;
    Ok(())
}

/// The `id` of an element that has one which is not empty.
fn own_id(node: &Body) -> Option<&str>
    ensures { (x : Chars) → is_named x node.now ≡ option_map_or (λ w. bytes_eq x w.now) result false }
{
    let Body::Element { attrs, .. } = node else {
        return None;
    };
    let id = attrs.text("id");
    if id.is_empty() { None } else { Some(id) }
}

/// The id that a `label` is for.
fn labelled_id(node: &Body) -> Option<&str>
    ensures { (x : Chars) → is_label_for x node.now ≡ option_map_or (λ w. bytes_eq x w.now) result false }
{
    let Body::Element { tag, attrs, .. } = node else {
        return None;
    };
    if !tag.is("label") {
        return None;
    }
    match attrs.get("for") {
        Some(id) => Some(id.as_str()),
        None => None,
    }
}
