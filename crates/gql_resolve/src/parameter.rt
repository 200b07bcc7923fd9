//! What a parameter of a field gives at an input type.
ghost use Rattle.std.specs.Prelude.{◌≡◌, IfOk};
ghost use Rattle.std.specs.Option.{option_copied};
ghost use Rattle.gql_doc.specs.Document.{argument_named};
ghost use Rattle.gql_doc.specs.declared.document.Field.{out-Field};
ghost use Rattle.gql_resolve.specs.Parameter.{IsParameterOf, IsReadAt, IsReadOf};
ghost use Rattle.gql_resolve.specs.Parameter.{nowhere as outside};
ghost use Rattle.gql_resolve.specs.Variables.{value_at as value_in};

use crate::variables::value_at;
use gql_base::{Made, Pos, ServerResult, Value};
use gql_doc::{Argument, Field};
use gql_input::InputType;
use gql_request::QueryEnv;
use std::alloc::Global;

/// The place of what stands nowhere in the document.
fn nowhere() -> Pos
    ensures { result ≡ outside }
{
    Pos { line: 0, column: 0 }
}

/// What a written argument gives, or what its absence does.
pub(crate) fn parameter<T: InputType + Drop>(
    alloc: Global,
    env: &QueryEnv,
    argument: Option<&Argument>,
    default: Option<T>,
) -> Made<ServerResult<(Pos, T)>>
    ensures { IfOk result (IsParameterOf T.read env.now (option_copied argument.entry) default) }
{
    match argument {
        Some(argument) => read_argument(alloc, env, argument),
        None => match default {
            Some(default) => Ok(Ok((nowhere(), default))),
            None => read_at(alloc, nowhere(), None),
        },
    }
}

/// Reads the value of an argument, at its place.
fn read_argument<T: InputType>(
    alloc: Global,
    env: &QueryEnv,
    argument: &Argument,
) -> Made<ServerResult<(Pos, T)>>
    ensures { let value = argument.now.value in
        IfOk result (IsReadOf T.read value.pos (value_in env.now value.pos value.node)) }
{
    let pos = argument.value.pos;
    match value_at(alloc, env, pos, &argument.value.node)? {
        Ok(value) => read_at(alloc, pos, Some(value)),
        Err(error) => Ok(Err(error)),
    }
}

/// Reads a value, or none, at a place.
fn read_at<T: InputType>(
    alloc: Global,
    pos: Pos,
    value: Option<Value>,
) -> Made<ServerResult<(Pos, T)>>
    ensures { IfOk result (IsReadAt pos (T.read value)) }
{
    match T::parse(alloc, value)? {
        Ok(read) => Ok(Ok((pos, read))),
        Err(error) => Ok(Err(error.into_server_error(alloc, pos)?)),
    }
}

/// The first argument of a name.
pub(crate) fn argument_of<'a>(field: &'a Field, name: &str) -> Option<&'a Argument>
    ensures { option_copied result ≡ argument_named name.now (out-Field field.now).arguments }
{
    field
        .arguments
        .as_slice()
        .iter()
        .find(|argument| argument.name.node.as_str() == name)
}
