//! In which properties two records differ.
ghost use Rattle.std.specs.Prelude.{◌≡◌, ◌++◌, map, filter, not, IfOk, OnOk, bytes_eq};
ghost use Rattle.std.specs.Option.{option_eq};
ghost use Rattle.ax_record.specs.Differences.{prop_of, same_prop, changed_props, with_prop, with_props};

use crate::record::copy_text;
use crate::{Prop, PropList, PropValue, Record};
use ax_base::{NoMemory, Text};
use std::alloc::Global;

/// The properties, in their order.
const EVERY_PROP: [Prop; 12] = [
    Prop::Role,
    Prop::Name,
    Prop::Description,
    Prop::Value,
    Prop::States,
    Prop::Level,
    Prop::Live,
    Prop::Frame,
    Prop::Text,
    Prop::Runs,
    Prop::Parent,
    Prop::Kids,
];

/// The properties in which two records differ, in their order, with the values of the second.
pub fn changed_props(alloc: Global, old: &Record, new: &Record) -> Result<PropList, NoMemory>
    ensures { IfOk result (λ props. props ≡ changed_props old.now new.now) }
{
    let mut props = PropList::new(alloc);
    list_changed(alloc, &EVERY_PROP, old, new, &mut props)?;
    Ok(props)
}

/// Lists those of some properties in which two records differ.
fn list_changed(
    alloc: Global,
    some: &[Prop],
    old: &Record,
    new: &Record,
    props: &mut PropList,
) -> Result<(), NoMemory>
    ensures { OnOk result (props.new ≡ props.old ++ map (λ p. prop_of p new.now) (filter (λ p. not (same_prop p old.now new.now)) some.now)) }
{
    for prop in some {
        if !same_prop(*prop, old, new) {
            props.push(prop_of(alloc, *prop, new)?)?;
        }
    }
    Ok(())
}

/// Whether two records have the same value of a property.
fn same_prop(prop: Prop, old: &Record, new: &Record) -> bool
    ensures { result ≡ same_prop prop old.now new.now }
{
    match prop {
        Prop::Role => old.role == new.role,
        Prop::Name => same_text(&old.name, &new.name),
        Prop::Description => same_text(&old.description, &new.description),
        Prop::Value => same_optional_text(&old.value, &new.value),
        Prop::States => old.states == new.states,
        Prop::Level => old.level == new.level,
        Prop::Live => old.live == new.live,
        Prop::Frame => old.frame == new.frame,
        Prop::Text => same_optional_text(&old.text, &new.text),
        Prop::Runs => old.runs.as_slice() == new.runs.as_slice(),
        Prop::Parent => old.parent == new.parent,
        Prop::Kids => old.kids.as_slice() == new.kids.as_slice(),
    }
}

/// Whether two texts are the same.
fn same_text(old: &Text, new: &Text) -> bool
    ensures { result ≡ bytes_eq old.now new.now }
{
    old.is(new.as_str())
}

/// Whether two texts are the same, where there are any.
pub fn same_optional_text(old: &Option<Text>, new: &Option<Text>) -> bool
    ensures { result ≡ option_eq bytes_eq old.now new.now }
{
    match old {
        None => new.is_none(),
        Some(old) => match new {
            None => false,
            Some(new) => same_text(old, new),
        },
    }
}

/// A property of a record, with a copy of its value.
fn prop_of(alloc: Global, prop: Prop, object: &Record) -> Result<PropValue, NoMemory>
    ensures { IfOk result (λ value. value ≡ prop_of prop object.now) }
{
    Ok(match prop {
        Prop::Role => PropValue::Role(object.role),
        Prop::Name => PropValue::Name(object.name.copy(alloc)?),
        Prop::Description => PropValue::Description(object.description.copy(alloc)?),
        Prop::Value => PropValue::Value(copy_text(alloc, &object.value)?),
        Prop::States => PropValue::States(object.states),
        Prop::Level => PropValue::Level(object.level),
        Prop::Live => PropValue::Live(object.live),
        Prop::Frame => PropValue::Frame(object.frame),
        Prop::Text => PropValue::Text(copy_text(alloc, &object.text)?),
        Prop::Runs => PropValue::Runs(object.runs.copy(alloc)?),
        Prop::Parent => PropValue::Parent(object.parent),
        Prop::Kids => PropValue::Kids(object.kids.copy(alloc)?),
    })
}

impl Record {
    /// Takes a property over. It takes no memory.
    pub fn take_over(&mut self, value: PropValue)
        ensures { self.new ≡ with_prop self.old value }
    {
        match value {
            PropValue::Role(role) => self.role = role,
            PropValue::Name(name) => self.name = name,
            PropValue::Description(description) => self.description = description,
            PropValue::Value(value) => self.value = value,
            PropValue::States(states) => self.states = states,
            PropValue::Level(level) => self.level = level,
            PropValue::Live(live) => self.live = live,
            PropValue::Frame(frame) => self.frame = frame,
            PropValue::Text(text) => self.text = text,
            PropValue::Runs(runs) => self.runs = runs,
            PropValue::Parent(parent) => self.parent = parent,
            PropValue::Kids(kids) => self.kids = kids,
        }
    }

    /// Takes properties over, in order. It takes no memory.
    pub fn take_over_all(&mut self, props: PropList)
        ensures { self.new ≡ with_props self.old props }
    {
        for value in props.into_vec() {
            self.take_over(value);
        }
    }
}
