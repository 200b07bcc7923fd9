//! The answer to a bench's requests.
ghost use Rattle.std.specs.Prelude.{◌≡◌, IfOk, Some};
ghost use Rattle.gql_cli.specs.Answer.{IsAnswerOver, IsAnswerTo};
ghost use Rattle.gql_cli.specs.Request.{AreAlike, rooted_with};
ghost use Rattle.gql_tasks.specs.Progress.{seen};
ghost use Rattle.gql_exec.specs.Batch.{ExecutesAll, ExecutesOne};
ghost use Rattle.gql_request.specs.BatchRequest.{requests_of};
ghost use Rattle.gql_request.specs.BatchResponse.{responses_of};

use gql_base::{Copied, Items, Made, Text};
use gql_bench::{Bench, ListTurns, Tables};
use gql_exec::{DynamicRequest, DynamicRequestExt, Schema, SchemaBuilder, SchemaBuilderExt};
use gql_request::{BatchRequest, BatchResponse, Hooks, Request, Response};
use gql_resolve::{FieldValue, ResolverSet, Turns};
use std::alloc::{AllocError, Global};

/// The answer to a bench's requests.
#[derive(Drop)]
pub(crate) enum Answer {
    /// The response to a single request, or those to a batch.
    Response(BatchResponse),
    /// Why the table of the bench's types is refused.
    BadSchema(Text),
}

/// The answer to the requests of a bench, over a set that `tables` makes of the bench's rules and
/// cells, and that is given back to them.
pub(crate) fn answer_by<M: Tables>(alloc: Global, bench: Bench, tables: &mut M) -> Made<Answer>
    ensures { IfOk result (λ answer. (set : M.Set) × (M.held tables.new ≡ Some set)
        × IsAnswerTo bench (M.Set.told set) answer) }
{
    let mut set = tables.make(alloc, &bench)?;
    let Bench {
        builder,
        root,
        turns,
        requests,
        ..
    } = bench;
    let mut turns = ListTurns::new(turns);
    let answer = answer_over(alloc, builder, requests, root, &mut set, &mut turns);
    tables.take_back(set);
    answer
}

/// The answer to requests over the schema of a builder. The root of each has this value.
fn answer_over<S: ResolverSet<Own = i64>>(
    alloc: Global,
    builder: SchemaBuilder,
    requests: BatchRequest,
    root: FieldValue<i64>,
    set: &mut S,
    turns: &mut ListTurns,
) -> Made<Answer>
    ensures { IfOk result (IsAnswerOver S.ResolverSet ⟦<ListTurns as Turns>⟧ builder requests root
        (seen set.old turns.old) (seen set.new turns.new)) }
{
    let schema = match builder.finish(alloc)? {
        Ok(schema) => schema,
        Err(error) => return Ok(Answer::BadSchema(error.text)),
    };
    let response = answers_over(alloc, &schema, requests, root, set, turns)?;
    Ok(Answer::Response(response))
}

/// The response to a single request over a schema, or those to a batch, one request after another.
/// The root of each has this value.
fn answers_over<S: ResolverSet<Own = i64>>(
    alloc: Global,
    schema: &Schema,
    requests: BatchRequest,
    root: FieldValue<i64>,
    set: &mut S,
    turns: &mut ListTurns,
) -> Made<BatchResponse>
    ensures alike { IfOk result (AreAlike requests) }
    ensures executed { IfOk result (λ response.
        ExecutesAll S.ResolverSet ⟦<ListTurns as Turns>⟧ schema.now
        (rooted_with root (requests_of requests)) (responses_of response)
        (seen set.old turns.old) (seen set.new turns.new)) }
{
    match requests {
        BatchRequest::Single(request) => {
            let request = request.root_value(root);
            let response = response_over(alloc, schema, &request, set, turns)?;
            Ok(BatchResponse::Single(response))
        }
        BatchRequest::Batch(requests) => {
            let requests = rooted_all(alloc, requests, &root)?;
            let responses = responses_over(alloc, schema, requests.as_slice(), set, turns)?;
            Ok(BatchResponse::Batch(responses))
        }
    }
}

/// Requests, each with a copy of this value for its root.
fn rooted_all(
    alloc: Global,
    requests: Items<Request>,
    root: &FieldValue<i64>,
) -> Made<Items<DynamicRequest<i64>>>
    ensures { IfOk result (λ rooted. rooted ≡ rooted_with root.now requests) }
{
    let mut rooted = Items::with_capacity(alloc, requests.len())?;
    for request in requests.into_vec() {
        let value = root.try_clone(alloc)?;
        rooted.push(request.root_value(value))?;
    }
    Ok(rooted)
}

/// The response to a request over a schema.
fn response_over<S: ResolverSet<Own = i64>>(
    alloc: Global,
    schema: &Schema,
    request: &DynamicRequest<i64>,
    set: &mut S,
    turns: &mut ListTurns,
) -> Made<Response>
    ensures { IfOk result (λ response.
        ExecutesOne S.ResolverSet ⟦<ListTurns as Turns>⟧ schema.now request.now response
        (seen set.old turns.old) (seen set.new turns.new)) }
{
    let mut hooks = Hooks::none(alloc);
    match schema.execute(alloc, set, &mut hooks, request, turns) {
        Ok(response) => Ok(response),
        Err(_) => Err(AllocError),
    }
}

/// The responses to requests over a schema, which are executed one after another.
fn responses_over<S: ResolverSet<Own = i64>>(
    alloc: Global,
    schema: &Schema,
    requests: &[DynamicRequest<i64>],
    set: &mut S,
    turns: &mut ListTurns,
) -> Made<Items<Response>>
    ensures { IfOk result (λ responses.
        ExecutesAll S.ResolverSet ⟦<ListTurns as Turns>⟧ schema.now requests.now responses
        (seen set.old turns.old) (seen set.new turns.new)) }
{
    let mut hooks = Hooks::none(alloc);
    match schema.execute_batch(alloc, set, &mut hooks, requests, turns) {
        Ok(responses) => Ok(responses),
        Err(_) => Err(AllocError),
    }
}
