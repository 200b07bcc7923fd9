//! The execution of one request without hooks.
ghost use Rattle.gql_tasks.specs.Progress.{seen};
ghost use Rattle.gql_serve.specs.Executing.{Executes};

use gql_base::NoMemory;
use gql_exec::{DynamicRequest, Schema};
use gql_request::{Hooks, Response};
use gql_resolve::{ResolverSet, Turns};
use std::alloc::Global;

/// What `Schema::execute` does without hooks.
pub(crate) fn execute_bare<R: ResolverSet, P: Turns>(
    alloc: Global,
    schema: &Schema,
    resolvers: &mut R,
    request: &DynamicRequest<R::Own>,
    turns: &mut P,
) -> Result<Response, NoMemory>
    ensures { Executes R.ResolverSet P.Turns schema.now request.now
        (seen resolvers.old turns.old) (seen resolvers.new turns.new) result }
{
    let mut hooks = Hooks::none(alloc);
    match schema.execute(alloc, resolvers, &mut hooks, request, turns) {
        Ok(response) => Ok(response),
        Err(want) => Err(want),
    }
}
