//! What the values of a document come to in a query (GraphQL, October 2021, section 6.4.1).
ghost use Rattle.std.specs.Prelude.{◌≡◌, map, IfOk, string_bytes};
ghost use Rattle.std.specs.Option.{option_copied};
ghost use Rattle.gql_select.specs.Constants.{default_of, resolved};
ghost use Rattle.gql_resolve.specs.Variables.{known_in, not_defined_text, resolved_members};
ghost use Rattle.gql_resolve.specs.Variables.{is_defined as defined, not_defined as refused};
ghost use Rattle.gql_resolve.specs.Variables.{unknown_in as first_unknown, value_at as given_at};
ghost use Rattle.gql_resolve.specs.Variables.{unknown_items, unknown_members, unless_defined};

use gql_base::{Copied, Items, Made, Pairs, Pos, ServerError, ServerResult, Value};
use gql_doc::DocValue;
use gql_request::QueryEnv;
use std::alloc::Global;

/// A value with what its variables stand for, or the refusal of the first of them that the
/// operation doesn't define, at a place.
pub(crate) fn value_at(
    alloc: Global,
    env: &QueryEnv,
    pos: Pos,
    written: &DocValue,
) -> Made<ServerResult<Value>>
    ensures { IfOk result (λ made. made ≡ given_at env.now pos written.now) }
{
    match unknown_in(env, written) {
        Some(name) => Ok(Err(not_defined(alloc, name, pos)?)),
        None => Ok(Ok(resolved_value(alloc, env, written)?)),
    }
}

/// The first variable of a value, in the order of the document, that the operation doesn't define.
#[cycle(unknown)]
fn unknown_in<'a>(env: &QueryEnv, written: &'a DocValue) -> Option<&'a str>
    ensures { option_copied result ≡ first_unknown env.now written.entry.now }
{
    match written {
        DocValue::Variable(name) => unknown_name(env, name.as_str()),
        DocValue::List(items) => unknown_in_items(env, items.as_slice()),
        DocValue::Object(members) => unknown_in_members(env, members),
        DocValue::Null
        | DocValue::Boolean(_)
        | DocValue::Number(_)
        | DocValue::String(_)
        | DocValue::Enum(_) => None,
    }
}

#[cycle(unknown)]
fn unknown_in_items<'a>(env: &QueryEnv, items: &'a [DocValue]) -> Option<&'a str>
    ensures { option_copied result ≡ unknown_items env.now items.entry.now }
{
    for item in items {
        let found = unknown_in(env, item);
        if found.is_some() {
            return found;
        }
    }
    None
}

#[cycle(unknown)]
fn unknown_in_members<'a>(env: &QueryEnv, members: &'a Pairs<DocValue>) -> Option<&'a str>
    ensures { option_copied result ≡ unknown_members env.now members.entry.now }
{
    for index in 0..members.len() {
        let found = unknown_in(env, members.at(index).1);
        if found.is_some() {
            return found;
        }
    }
    None
}

/// A variable, where the operation doesn't define it.
fn unknown_name<'a>(env: &QueryEnv, name: &'a str) -> Option<&'a str>
    ensures { option_copied result ≡ unless_defined env.now name.entry.now }
{
    if is_defined(env, name) {
        None
    } else {
        Some(name)
    }
}

fn is_defined(env: &QueryEnv, name: &str) -> bool
    ensures { result ≡ defined env.now name.now }
{
    env.definition(name).is_some()
}

/// The refusal of a variable that the operation doesn't define.
#[tactic(auto, using(crate::proofs::VariableLemmas::refusal_of))]
fn not_defined(alloc: Global, name: &str, pos: Pos) -> Made<ServerError>
    ensures { IfOk result (λ error. error ≡ refused name.now pos) }
{
    let message = not_defined_message(alloc, name)?;
    ServerError::new(alloc, message.as_str(), Some(pos))
}

#[tactic(auto, unfolding(crate::specs::Variables::not_defined_text))]
fn not_defined_message(alloc: Global, name: &str) -> Made<String>
    ensures { IfOk result (λ text. string_bytes text ≡ not_defined_text name.now) }
{
    format!(in alloc; "Variable {name} is not defined.")
}

/// A value of the document, with what its variables stand for (section 6.4.1). A variable that is
/// neither given nor has a default is null. It fails only where memory runs out.
#[cycle(resolve)]
pub fn resolved_value(alloc: Global, env: &QueryEnv, value: &DocValue) -> Made<Value>
    ensures { IfOk result (λ made. made ≡ resolved (known_in env.now) value.now) }
{
    match value {
        DocValue::Variable(name) => resolve_variable(alloc, env, name.as_str()),
        DocValue::Null => Ok(Value::Null),
        DocValue::Boolean(truth) => Ok(Value::Boolean(*truth)),
        DocValue::Number(number) => Ok(Value::Number(*number)),
        DocValue::String(text) => Ok(Value::String(text.try_clone(alloc)?)),
        DocValue::Enum(name) => Ok(Value::Enum(name.try_clone(alloc)?)),
        DocValue::List(items) => Value::list(alloc, resolve_items(alloc, env, items.as_slice())?),
        DocValue::Object(members) => Value::object(alloc, resolve_members(alloc, env, members)?),
    }
}

#[cycle(resolve)]
fn resolve_items(alloc: Global, env: &QueryEnv, items: &[DocValue]) -> Made<Items<Value>>
    ensures { IfOk result (λ made. made ≡ map (resolved (known_in env.now)) items.now) }
{
    let mut values = Items::with_capacity(alloc, items.len())?;
    for item in items {
        values.push(resolved_value(alloc, env, item)?)?;
    }
    Ok(values)
}

#[cycle(resolve)]
fn resolve_members(alloc: Global, env: &QueryEnv, members: &Pairs<DocValue>) -> Made<Pairs<Value>>
    ensures { IfOk result (λ made. made ≡ resolved_members (known_in env.now) members.now) }
{
    let mut values = Vec::with_capacity(alloc, members.len())?;
    for index in 0..members.len() {
        values.push(resolved_value(alloc, env, members.at(index).1)?)?;
    }
    members.with_values(alloc, values)
}

/// What a variable stands for: the request's value, else its default, else null (section 6.1.2).
fn resolve_variable(alloc: Global, env: &QueryEnv, name: &str) -> Made<Value>
    ensures { IfOk result (λ made. made ≡ known_in env.now name.now) }
{
    match env.variables.get(name) {
        Some(value) => value.try_clone(alloc),
        None => match default_value(env, name) {
            Some(value) => value.try_clone(alloc),
            None => Ok(Value::Null),
        },
    }
}

/// The default of a variable, by the first definition of its name.
fn default_value<'a>(env: &'a QueryEnv, name: &str) -> Option<&'a Value>
    ensures { option_copied result
        ≡ default_of name.now env.now.operation.node.variable_definitions }
{
    match env.definition(name) {
        Some(definition) => match &definition.node.default {
            Some(default) => Some(&default.node),
            None => None,
        },
        None => None,
    }
}
