//! The texts by which an element is named, or names others.
ghost use Rattle.std.specs.Prelude.{◌≡◌, bytes_eq, false};
ghost use Rattle.std.specs.Option.{option_map_or};
ghost use Rattle.ax_base.specs.AccessibleNames.{is_label_for};
ghost use Rattle.ax_base.specs.Characters.{Chars};
ghost use Rattle.ax_base.specs.Document.{has_id, text_of};

use ax_base::Body;

/// The `id` of an element.
pub(crate) fn own_id(node: &Body) -> Option<&str>
    ensures { (x : Chars) → has_id x node.now ≡ option_map_or (λ w. bytes_eq x w.now) result false }
{
    let Body::Element { attrs, .. } = node else {
        return None;
    };
    match attrs.get("id") {
        Some(id) => Some(id.as_str()),
        None => None,
    }
}

/// The `id` that a `label` is for.
pub(crate) fn labelled_id(node: &Body) -> Option<&str>
    ensures { (x : Chars) → is_label_for x node.now ≡ option_map_or (λ w. bytes_eq x w.now) result false }
{
    let Body::Element { tag, attrs, .. } = node else {
        return None;
    };
    if !tag.is("label") {
        return None;
    }
    match attrs.get("for") {
        Some(id) => Some(id.as_str()),
        None => None,
    }
}

/// The value of an attribute, or the empty text where there is none.
pub(crate) fn text_of<'a>(node: &'a Body, name: &str) -> &'a str
    ensures { result.now ≡ text_of name.now node.now }
{
    match node {
        Body::Element { attrs, .. } => attrs.text(name),
        Body::Words { .. } => "",
    }
}
