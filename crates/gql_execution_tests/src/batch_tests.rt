//! Batches of requests over a ballot.
use crate::ballot::{Ballot, Last};
use crate::schemas::{finished, with_object};
use gql_base::{Items, Made, Text};
use gql_exec::{DynamicRequest, Schema};
use gql_request::{BatchNoMemory, BatchResponse, Hooks, Request};
use std::alloc::{AllocError, Global};
use std::test::Fail;

/// The queries of a batch, the responses to them, and how many polls are told.
type Batch = ([&'static str; 3], &'static str, usize);

const BATCHES: [Batch; 2] = [
    (
        ["{ last }", "mutation { vote }", "{ last }"],
        r#"[{"data":{"last":7}},{"data":{"vote":7}},{"data":{"last":3}}]"#,
        6,
    ),
    (
        ["mutation { vote }", "{ nope }", "{ last }"],
        r#"[{"data":{"vote":7}},{"data":null,"errors":[{"message":"Unknown field \"nope\" on type \"Query\".","locations":[{"line":1,"column":3}]}]},{"data":{"last":3}}]"#,
        4,
    ),
];

/// A schema whose queries ask for the last vote, and whose mutations vote for 3.
fn schema(alloc: Global) -> Made<Schema> {
    let builder = Schema::build(alloc, "Query", Some("Mutation"), None)?;
    let builder = with_object(alloc, builder, "Query", &[("last", "Int", 0)])?;
    finished(
        alloc,
        with_object(alloc, builder, "Mutation", &[("vote", "Int", 3)])?,
    )
}

/// Requests without a value for their roots.
fn requests_of(alloc: Global, queries: &[&str]) -> Made<Items<DynamicRequest<u64>>> {
    let mut requests = Items::new(alloc);
    for query in queries {
        requests.push(DynamicRequest::from(Request::new(alloc, query)?))?;
    }
    Ok(requests)
}

/// The JSON of the responses to a batch over a ballot.
fn responses_json(
    alloc: Global,
    schema: &Schema,
    requests: &[DynamicRequest<u64>],
    set: &mut Ballot,
) -> Result<Text, BatchNoMemory> {
    let mut hooks = Hooks::none(alloc);
    let responses = schema.execute_batch(alloc, set, &mut hooks, requests, &mut Last)?;
    Ok(BatchResponse::Batch(responses).json(alloc)?)
}

/// Whether a batch has these responses, after so many polls, over a ballot whose last vote is 7.
fn is_answered(
    alloc: Global,
    schema: &Schema,
    queries: &[&str],
    json: &str,
    polls: usize,
) -> Result<bool, BatchNoMemory> {
    let requests = requests_of(alloc, queries)?;
    let mut set = Ballot::new(alloc, 1);
    set.last_vote = 7;
    let text = responses_json(alloc, schema, requests.as_slice(), &mut set)?;
    Ok(text.as_str() == json && set.entries.len() == polls)
}

/// The responses of the first batch that has others.
fn first_wrong(alloc: Global, table: &[Batch]) -> Result<Option<&'static str>, BatchNoMemory> {
    let schema = schema(alloc)?;
    for (queries, json, polls) in table {
        if !is_answered(alloc, &schema, queries.as_slice(), *json, *polls)? {
            return Ok(Some(*json));
        }
    }
    Ok(None)
}

#[test]
fn batches_and_their_responses(rt: HostRuntime) -> Result<(), Fail> {
    let wrong = first_wrong(rt.alloc(), &BATCHES).map_err(|_| AllocError)?;
    assert_eq!(rt; wrong, None);
    Ok(())
}
