//! The properties of a change.
ghost use Rattle.std.specs.Prelude.{◌≡◌, ◌++◌, flat_map, if◌then◌else◌, Some, IfOk, OnOk, option_copied, option_to_list};
ghost use Rattle.ax_record.specs.contracts.prop.PropPartialEq.TheImpl as props;
ghost use Rattle.std.specs.Option.{option_or};
ghost use Rattle.ax_batch.specs.Fates.{prop_in, value_in, joint_props, all_props};

use ax_base::{NoMemory, Text};
use ax_record::{Prop, PropList, PropValue, Record};
use std::alloc::Global;

/// The properties, in their order.
const EVERY_PROP: [Prop; 12] = [
    Prop::Role,
    Prop::Name,
    Prop::Description,
    Prop::Value,
    Prop::States,
    Prop::Level,
    Prop::Live,
    Prop::Frame,
    Prop::Text,
    Prop::Runs,
    Prop::Parent,
    Prop::Kids,
];

/// Of which property a value is.
fn prop_in(value: &PropValue) -> Prop
    ensures { result ≡ prop_in value.now }
{
    match value {
        PropValue::Role(_) => Prop::Role,
        PropValue::Name(_) => Prop::Name,
        PropValue::Description(_) => Prop::Description,
        PropValue::Value(_) => Prop::Value,
        PropValue::States(_) => Prop::States,
        PropValue::Level(_) => Prop::Level,
        PropValue::Live(_) => Prop::Live,
        PropValue::Frame(_) => Prop::Frame,
        PropValue::Text(_) => Prop::Text,
        PropValue::Runs(_) => Prop::Runs,
        PropValue::Parent(_) => Prop::Parent,
        PropValue::Kids(_) => Prop::Kids,
    }
}

/// An equal value.
pub(crate) fn copy_value(alloc: Global, value: &PropValue) -> Result<PropValue, NoMemory>
    ensures { IfOk result (λ copy. copy ≡ value.now) }
{
    Ok(match value {
        PropValue::Role(role) => PropValue::Role(*role),
        PropValue::Name(name) => PropValue::Name(name.copy(alloc)?),
        PropValue::Description(description) => PropValue::Description(description.copy(alloc)?),
        PropValue::Value(value) => PropValue::Value(copy_text(alloc, value)?),
        PropValue::States(states) => PropValue::States(*states),
        PropValue::Level(level) => PropValue::Level(*level),
        PropValue::Live(live) => PropValue::Live(*live),
        PropValue::Frame(frame) => PropValue::Frame(*frame),
        PropValue::Text(text) => PropValue::Text(copy_text(alloc, text)?),
        PropValue::Runs(runs) => PropValue::Runs(runs.copy(alloc)?),
        PropValue::Parent(parent) => PropValue::Parent(*parent),
        PropValue::Kids(kids) => PropValue::Kids(kids.copy(alloc)?),
    })
}

/// An equal text, where there is one.
fn copy_text(alloc: Global, text: &Option<Text>) -> Result<Option<Text>, NoMemory>
    ensures { IfOk result (λ copy. copy ≡ text.now) }
{
    match text {
        None => Ok(None),
        Some(text) => Ok(Some(text.copy(alloc)?)),
    }
}

/// Equal properties.
pub(crate) fn copy_props(alloc: Global, props: &PropList) -> Result<PropList, NoMemory>
    ensures { IfOk result (λ copy. copy ≡ props.now) }
{
    let mut copy = PropList::new(alloc);
    for value in props.as_slice() {
        copy.push(copy_value(alloc, value)?)?;
    }
    Ok(copy)
}

/// The value of a property among some, the last where it has several.
#[tactic(auto, using(crate::proofs::TakingOver::value_in_more, crate::proofs::TakingOver::value_in_none))]
fn value_in<'a>(prop: Prop, values: &'a [PropValue]) -> Option<&'a PropValue>
    ensures { option_copied result ≡ value_in prop values.now }
{
    let mut found = None;
    for value in values {
        found = later(prop, value, found);
    }
    found
}

/// A value, where it is of that property, and else what was found before it.
fn later<'a>(
    prop: Prop,
    value: &'a PropValue,
    found: Option<&'a PropValue>,
) -> Option<&'a PropValue>
    ensures { option_copied result ≡ (if props.ghosts.eq (prop_in value.now) prop then Some value.now else option_copied found.entry) }
{
    if prop_in(value) == prop {
        Some(value)
    } else {
        found
    }
}

/// The properties of either list, in their order, with the second's value where it has one.
pub(crate) fn joint_props(
    alloc: Global,
    first: &PropList,
    second: &PropList,
) -> Result<PropList, NoMemory>
    ensures { IfOk result (λ props. props ≡ joint_props first.now second.now) }
{
    let mut props = PropList::new(alloc);
    list_joint(alloc, &EVERY_PROP, first, second, &mut props)?;
    Ok(props)
}

/// Lists those of some properties that either list has.
fn list_joint(
    alloc: Global,
    some: &[Prop],
    first: &PropList,
    second: &PropList,
    props: &mut PropList,
) -> Result<(), NoMemory>
    ensures { OnOk result (props.new ≡ props.old ++ flat_map (λ p. option_to_list (option_or (value_in p second.now) (value_in p first.now))) some.now) }
{
    for prop in some {
        list_one(
            alloc,
            value_in(*prop, second.as_slice()),
            value_in(*prop, first.as_slice()),
            props,
        )?;
    }
    Ok(())
}

/// Lists the first value that there is.
fn list_one(
    alloc: Global,
    value: Option<&PropValue>,
    other: Option<&PropValue>,
    props: &mut PropList,
) -> Result<(), NoMemory>
    ensures { OnOk result (props.new ≡ props.old ++ option_to_list (option_or (option_copied value.entry) (option_copied other.entry))) }
{
    if let Some(value) = value {
        props.push(copy_value(alloc, value)?)?;
        return Ok(());
    }
    if let Some(value) = other {
        props.push(copy_value(alloc, value)?)?;
    }
    Ok(())
}

/// All properties of a record, in their order.
#[tactic(auto, unfolding(crate::specs::Fates::all_props))]
pub(crate) fn all_props(alloc: Global, object: Record) -> Result<PropList, NoMemory>
    ensures { IfOk result (λ props. props ≡ all_props object) }
{
    let Record {
        id: _,
        role,
        name,
        description,
        value,
        states,
        level,
        live,
        frame,
        text,
        runs,
        parent,
        kids,
    } = object;
    let values = [
        PropValue::Role(role),
        PropValue::Name(name),
        PropValue::Description(description),
        PropValue::Value(value),
        PropValue::States(states),
        PropValue::Level(level),
        PropValue::Live(live),
        PropValue::Frame(frame),
        PropValue::Text(text),
        PropValue::Runs(runs),
        PropValue::Parent(parent),
        PropValue::Kids(kids),
    ];
    Ok(PropList::from_vec(Vec::from_array(alloc, values)?))
}
