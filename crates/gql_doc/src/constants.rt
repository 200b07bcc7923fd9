//! The constants of a document: values without variables (section 2.9).
ghost use Rattle.std.specs.Prelude.{◌≡◌, map, IfOk};
ghost use Rattle.gql_doc.specs.Drafts.{constant_in, constant_member};

use crate::document::DocValue;
use gql_base::{Copied, Items, Made, Pairs, Value};
use std::alloc::Global;

/// The constant that a value is in which no variable stands.
#[cycle(constant)]
pub fn constant_of(alloc: Global, value: &DocValue) -> Made<Value>
    ensures { IfOk result (λ constant. constant ≡ constant_in value.now) }
{
    match value {
        DocValue::Variable(_) => Ok(Value::Null),
        DocValue::Null => Ok(Value::Null),
        DocValue::Boolean(holds) => Ok(Value::Boolean(*holds)),
        DocValue::Number(number) => Ok(Value::Number(*number)),
        DocValue::String(text) => Ok(Value::String(text.try_clone(alloc)?)),
        DocValue::Enum(name) => Ok(Value::Enum(name.try_clone(alloc)?)),
        DocValue::List(values) => Value::list(alloc, constants_of(alloc, values.as_slice())?),
        DocValue::Object(members) => Value::object(alloc, members_of(alloc, members)?),
    }
}

/// The constants of a list.
#[cycle(constant)]
fn constants_of(alloc: Global, values: &[DocValue]) -> Made<Items<Value>>
    ensures { IfOk result (λ constants. constants ≡ map constant_in values.now) }
{
    let mut constants = Items::with_capacity(alloc, values.len())?;
    for value in values {
        constants.push(constant_of(alloc, value)?)?;
    }
    Ok(constants)
}

/// The constants of an object, under the same names.
#[cycle(constant)]
fn members_of(alloc: Global, members: &Pairs<DocValue>) -> Made<Pairs<Value>>
    ensures { IfOk result (λ constants. constants ≡ map constant_member members.now) }
{
    let mut constants = Vec::with_capacity(alloc, members.len())?;
    for place in 0..members.len() {
        constants.push(constant_of(alloc, members.at(place).1)?)?;
    }
    members.with_values(alloc, constants)
}
