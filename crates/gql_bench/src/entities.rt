//! What the entity rule answers.
ghost use Rattle.std.specs.Prelude.{◌≡◌, [], ◌∷◌, IfOk};
ghost use Rattle.std.specs.Option.{option_copied};
ghost use Rattle.gql_bench.specs.Entities.{entities_behind, entities_given, entities_outcome};
ghost use Rattle.gql_bench.specs.Entities.{entities_told, entity_in, representations_in};
ghost use Rattle.gql_bench.specs.Entities.{typename_in};

use crate::sum::{Outcome, member_of, message_error};
use gql_base::{Copied, Items, Made, Pairs, Value};
use gql_resolve::FieldValue;
use std::alloc::Global;

/// The entities of an argument, or none where a representation lacks its type.
type Entities = Option<Items<FieldValue<i64>>>;

/// What the entity rule gives for these arguments.
pub(crate) fn entities_of(alloc: Global, arguments: &Pairs<Value>) -> Made<Outcome>
    ensures { IfOk result (λ outcome. outcome ≡ entities_outcome arguments.now) }
{
    let entities = entities_in(alloc, arguments.get("representations"))?;
    told(alloc, entities)
}

/// What entities give: their list, or the error of a representation without its type.
fn told(alloc: Global, entities: Entities) -> Made<Outcome>
    ensures { IfOk result (λ outcome. outcome ≡ entities_told entities) }
{
    match entities {
        Some(entities) => Ok(Ok(Some(FieldValue::List(entities)))),
        None => Ok(Err(message_error(alloc, "internal: key \"__typename\" not found")?)),
    }
}

/// The entities of the argument, where it is given and each representation has its type.
fn entities_in(alloc: Global, given: Option<&Value>) -> Made<Entities>
    ensures { IfOk result (λ found. found ≡ entities_given (option_copied given.entry)) }
{
    match given {
        Some(value) => entities_at(alloc, value),
        None => Ok(None),
    }
}

/// The entities of an argument: those of its items, or the one that it is.
fn entities_at(alloc: Global, value: &Value) -> Made<Entities>
    ensures { IfOk result (λ found. found ≡ entities_behind [] (representations_in value.now)) }
{
    match value {
        Value::List(items) => entities_among(alloc, items.as_slice()),
        _ => entity_alone(alloc, value),
    }
}

/// The entities of representations, where each has its type.
fn entities_among(alloc: Global, values: &[Value]) -> Made<Entities>
    ensures { IfOk result (λ found. found ≡ entities_behind [] values.now) }
{
    let mut entities = Items::new(alloc);
    for value in values {
        match entity_of(alloc, value)? {
            Some(entity) => entities.push(entity)?,
            None => return Ok(None),
        }
    }
    Ok(Some(entities))
}

/// The list of one entity, where the representation has its type.
fn entity_alone(alloc: Global, value: &Value) -> Made<Entities>
    ensures { IfOk result (λ found. found ≡ entities_behind [] (value.now ∷ [])) }
{
    match entity_of(alloc, value)? {
        Some(entity) => Ok(Some(lone(alloc, entity)?)),
        None => Ok(None),
    }
}

/// The list of this alone.
fn lone(alloc: Global, entity: FieldValue<i64>) -> Made<Items<FieldValue<i64>>>
    ensures { IfOk result (λ entities. entities ≡ entity ∷ []) }
{
    let mut entities = Items::new(alloc);
    entities.push(entity)?;
    Ok(entities)
}

/// A representation under its `__typename`, where it is an object with such a text.
fn entity_of(alloc: Global, value: &Value) -> Made<Option<FieldValue<i64>>>
    ensures { IfOk result (λ entity. entity ≡ entity_in value.now) }
{
    match typename_of(value) {
        Some(name) => {
            let representation = FieldValue::Value(value.try_clone(alloc)?);
            Ok(Some(representation.with_type(alloc, name)?))
        }
        None => Ok(None),
    }
}

/// The text under `__typename` of an object.
fn typename_of(value: &Value) -> Option<&str>
    ensures { option_copied result ≡ typename_in value.now }
{
    match member_of(value, "__typename") {
        Some(Value::String(name)) => Some(name.as_str()),
        _ => None,
    }
}
