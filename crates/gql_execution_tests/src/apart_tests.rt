//! Requests that are executed apart: each occurrence is asked, and the response is that of merged
//! execution.
use crate::ballot::{Ballot, Last};
use crate::schemas::{finished, with_object};
use gql_base::{Made, NoMemory, Text};
use gql_exec::{DynamicRequest, Schema};
use gql_request::{Hooks, Request};
use std::alloc::Global;
use std::test::Fail;

/// A query, its response, and how many polls are told.
type Answered = (&'static str, &'static str, usize);

const APART: [Answered; 3] = [
    ("{ value }", r#"{"data":{"value":7}}"#, 2),
    (
        "{ a: value a: value ...F } fragment F on Query { a: value }",
        r#"{"data":{"a":7}}"#,
        6,
    ),
    (
        "mutation { value }",
        r#"{"data":null,"errors":[{"message":"Mutation root not found"}]}"#,
        0,
    ),
];

/// A schema whose queries ask for the last vote, and no other root.
fn schema(alloc: Global) -> Made<Schema> {
    let builder = Schema::build(alloc, "Query", None, None)?;
    finished(
        alloc,
        with_object(alloc, builder, "Query", &[("value", "Int", 0)])?,
    )
}

/// The JSON of the response to a request over a ballot.
fn response_json(
    alloc: Global,
    schema: &Schema,
    request: &DynamicRequest<u64>,
    set: &mut Ballot,
) -> Result<Text, NoMemory> {
    let mut hooks = Hooks::none(alloc);
    let response = schema.execute_apart(alloc, set, &mut hooks, request, &mut Last)?;
    Ok(response.json(alloc)?)
}

/// Whether a request is answered by this response, after so many polls, over a ballot whose last
/// vote is 7 and whose answers come after a pending poll.
fn is_answered(
    alloc: Global,
    schema: &Schema,
    query: &str,
    json: &str,
    polls: usize,
) -> Result<bool, NoMemory> {
    let request = DynamicRequest::from(Request::new(alloc, query)?);
    let mut set = Ballot::new(alloc, 1);
    set.last_vote = 7;
    let text = response_json(alloc, schema, &request, &mut set)?;
    Ok(text.as_str() == json && set.entries.len() == polls)
}

/// The first query that is answered otherwise.
fn first_wrong(alloc: Global, table: &[Answered]) -> Result<Option<&'static str>, NoMemory> {
    let schema = schema(alloc)?;
    for (query, json, polls) in table {
        if !is_answered(alloc, &schema, *query, *json, *polls)? {
            return Ok(Some(*query));
        }
    }
    Ok(None)
}

#[test]
fn requests_that_are_executed_apart(rt: HostRuntime) -> Result<(), Fail> {
    assert_eq!(rt; first_wrong(rt.alloc(), &APART)?, None);
    Ok(())
}
