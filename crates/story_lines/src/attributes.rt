//! The attributes of an element.
ghost use Rattle.std.specs.Prelude.{◌≡◌, IfOk, codes};
ghost use Rattle.serde_json.specs.View.{view, members_view};
ghost use Rattle.serde_json.specs.Find.{get};
ghost use Rattle.story_lines.specs.Attributes.{attribute, attributes, maybe_attributes};

use crate::values::is_attribute_name;
use ax_base::{Attr, Attrs, NoMemory, Text};
use serde_json::{Map, Value};
use std::alloc::Global;

/// The attribute that a member is.
fn attribute(alloc: Global, name: &str, value: &Value) -> Result<Option<Attr>, NoMemory>
    ensures { IfOk result (λ attr. attr ≡ attribute name.now (view value.now)) }
{
    let Some(text) = value.as_str() else {
        return Ok(None);
    };
    if !is_attribute_name(name) {
        return Ok(None);
    }
    Ok(Some(Attr {
        name: Text::from_str(alloc, name)?,
        value: Text::from_str(alloc, text)?,
    }))
}

/// The attributes that members are, in the order of their names.
fn attributes(alloc: Global, members: &Map<String, Value>) -> Result<Option<Attrs>, NoMemory>
    ensures { IfOk result (λ attrs. attrs ≡ attributes (members_view members.now.entries)) }
{
    let mut attrs = Vec::with_capacity(alloc, members.len())?;
    for (name, value) in members {
        let Some(attr) = attribute(alloc, name.as_str(), value)? else {
            return Ok(None);
        };
        attrs.push(attr)?;
    }
    Ok(Some(Attrs::from_vec(attrs)))
}

/// The attributes at the key `attrs`, which may be missing.
pub(crate) fn maybe_attributes(alloc: Global, value: &Value) -> Result<Option<Attrs>, NoMemory>
    ensures { IfOk result (λ attrs. attrs ≡ maybe_attributes (get (codes "attrs") (view value.now))) }
{
    match value.get("attrs") {
        None => Ok(Some(Attrs::new(alloc))),
        Some(attrs) => match attrs.as_object() {
            None => Ok(None),
            Some(members) => attributes(alloc, members),
        },
    }
}
