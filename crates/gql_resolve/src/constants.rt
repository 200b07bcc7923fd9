//! Arguments and directives of a field, with the values of the arguments.
ghost use Rattle.std.specs.Prelude.{◌≡◌, IfOk};
ghost use Rattle.gql_resolve.specs.SelectionField.{argument_in, arguments_in, directive_in};
ghost use Rattle.gql_resolve.specs.SelectionField.{directives_in, placed_argument};
ghost use Rattle.gql_resolve.specs.SelectionField.{placed_arguments};

use crate::const_directive::ConstDirective;
use crate::variables::value_at;
use gql_base::{Copied, Items, Made, Name, ServerResult, Value};
use gql_doc::{Argument, Directive, Positioned};
use gql_request::QueryEnv;
use std::alloc::Global;

/// Arguments as they are written, with their values, or the first refusal.
pub(crate) fn arguments_of(
    alloc: Global,
    env: &QueryEnv,
    written: &[Argument],
) -> Made<ServerResult<Items<(Name, Value)>>>
    ensures { IfOk result (λ given. given ≡ arguments_in env.now written.now) }
{
    let mut all = Items::new(alloc);
    for argument in written {
        match argument_of(alloc, env, argument)? {
            Ok(one) => all.push(one)?,
            Err(error) => return Ok(Err(error)),
        }
    }
    Ok(Ok(all))
}

fn argument_of(
    alloc: Global,
    env: &QueryEnv,
    argument: &Argument,
) -> Made<ServerResult<(Name, Value)>>
    ensures { IfOk result (λ given. given ≡ argument_in env.now argument.now) }
{
    let name = argument.name.node.try_clone(alloc)?;
    match value_at(alloc, env, argument.name.pos, &argument.value.node)? {
        Ok(value) => Ok(Ok((name, value))),
        Err(error) => Ok(Err(error)),
    }
}

/// Directives as they are written, with the values of their arguments, or the first refusal.
pub(crate) fn directives_of(
    alloc: Global,
    env: &QueryEnv,
    written: &[Positioned<Directive>],
) -> Made<ServerResult<Items<ConstDirective>>>
    ensures { IfOk result (λ given. given ≡ directives_in env.now written.now) }
{
    let mut all = Items::new(alloc);
    for directive in written {
        match directive_of(alloc, env, directive)? {
            Ok(one) => all.push(one)?,
            Err(error) => return Ok(Err(error)),
        }
    }
    Ok(Ok(all))
}

fn directive_of(
    alloc: Global,
    env: &QueryEnv,
    directive: &Positioned<Directive>,
) -> Made<ServerResult<ConstDirective>>
    ensures { IfOk result (λ given. given ≡ directive_in env.now directive.now) }
{
    let name = directive.node.name.try_clone(alloc)?;
    match placed_arguments_of(alloc, env, directive.node.arguments.as_slice())? {
        Ok(arguments) => Ok(Ok(ConstDirective { name, arguments })),
        Err(error) => Ok(Err(error)),
    }
}

fn placed_arguments_of(
    alloc: Global,
    env: &QueryEnv,
    written: &[Argument],
) -> Made<ServerResult<Items<(Positioned<Name>, Positioned<Value>)>>>
    ensures { IfOk result (λ given. given ≡ placed_arguments env.now written.now) }
{
    let mut all = Items::new(alloc);
    for argument in written {
        match placed_argument_of(alloc, env, argument)? {
            Ok(one) => all.push(one)?,
            Err(error) => return Ok(Err(error)),
        }
    }
    Ok(Ok(all))
}

fn placed_argument_of(
    alloc: Global,
    env: &QueryEnv,
    argument: &Argument,
) -> Made<ServerResult<(Positioned<Name>, Positioned<Value>)>>
    ensures { IfOk result (λ given. given ≡ placed_argument env.now argument.now) }
{
    let name = argument.name.try_clone(alloc)?;
    match value_at(alloc, env, argument.name.pos, &argument.value.node)? {
        Ok(node) => {
            let pos = argument.value.pos;
            Ok(Ok((name, Positioned { pos, node })))
        }
        Err(error) => Ok(Err(error)),
    }
}
