//! Responses with what they do to headers, and executions of which each start of a resolver is a
//! step. A step takes no bytes, so the tasks that the set began are looked at in its place.
ghost use Rattle.std.specs.Prelude.{◌≡◌, ◌<◌};

use crate::answers::{Answers, Ends};
use crate::schemas::{Roots, schema};
use gql_base::{Made, NoMemory, Steps};
use gql_exec::{DynamicRequest, Schema};
use gql_request::{BatchResponse, HeaderFault, HeaderPairs, Hooks, Request, Response};
use std::alloc::{AllocError, Global};
use std::marker::Brand;
use std::sync::ledger::{Blank, Ledger};
use std::test::Fail;

/// The pairs, one after another.
fn pairs_text(alloc: Global, mut pairs: HeaderPairs) -> Made<String> {
    let mut out = String::new(alloc);
    while let Some((name, value)) = pairs.next() {
        let value = value.to_str().unwrap_or("");
        write!(out, "{} {value}; ", name.as_str())?;
    }
    Ok(out)
}

/// The headers of a response.
fn headers_of(alloc: Global, response: Response) -> Result<String, HeaderFault> {
    let pairs = BatchResponse::Single(response).http_headers_iter(alloc)?;
    Ok(pairs_text(alloc, pairs)?)
}

/// How many tasks were begun, the headers of a response, and its JSON.
fn told(alloc: Global, begun: usize, response: Response) -> Result<String, HeaderFault> {
    let json = response.json(alloc)?;
    let mut out = headers_of(alloc, response)?;
    write!(out, "begun {begun}: {}", json.as_str())?;
    Ok(out)
}

/// The response of `execute`.
fn executed(
    alloc: Global,
    schema: &Schema,
    request: &DynamicRequest<u64>,
    set: &mut Answers,
) -> Result<Response, NoMemory> {
    let mut hooks = Hooks::none(alloc);
    let mut turns = Ends { last: false };
    schema.execute(alloc, set, &mut hooks, request, &mut turns)
}

/// The response of `execute_counted`, with steps from the first one on.
fn counted_on_blank<S: Ledger>(
    alloc: Global,
    schema: &Schema,
    request: &DynamicRequest<u64>,
    set: &mut Answers,
    blank: Blank,
) -> Result<Response, NoMemory>
    requires name { blank.name ≡ S.name }
    requires parts { blank.parts ≡ S.parts }
    requires some { 0 < blank.parts }
{
    let mut steps: Steps<S> = Steps::new(blank);
    let mut hooks = Hooks::none(alloc);
    let mut turns = Ends { last: false };
    schema.execute_counted(alloc, set, &mut hooks, request, &mut turns, &mut steps)
}

/// The same on a ledger of its own.
fn counted(
    alloc: Global,
    schema: &Schema,
    request: &DynamicRequest<u64>,
    set: &mut Answers,
) -> Result<Response, NoMemory> {
    counted_on_blank::<Brand>(alloc, schema, request, set, Blank::new(1))
}

/// What `execute` comes to.
fn executed_text(
    alloc: Global,
    schema: &Schema,
    request: &DynamicRequest<u64>,
) -> Result<String, HeaderFault> {
    let mut set = Answers::new(alloc);
    match executed(alloc, schema, request, &mut set) {
        Ok(response) => told(alloc, set.begun.len(), response),
        Err(_) => Err(HeaderFault::NoMemory),
    }
}

/// What `execute_counted` comes to.
fn counted_text(
    alloc: Global,
    schema: &Schema,
    request: &DynamicRequest<u64>,
) -> Result<String, HeaderFault> {
    let mut set = Answers::new(alloc);
    match counted(alloc, schema, request, &mut set) {
        Ok(response) => told(alloc, set.begun.len(), response),
        Err(_) => Err(HeaderFault::NoMemory),
    }
}

/// Whether both calls come to this.
fn both_come_to(
    alloc: Global,
    schema: &Schema,
    request: &DynamicRequest<u64>,
    text: &str,
) -> Result<bool, HeaderFault> {
    let plain = executed_text(alloc, schema, request)?;
    let in_steps = counted_text(alloc, schema, request)?;
    Ok(plain.as_str() == text && in_steps.as_str() == text)
}

fn query_comes_to(
    alloc: Global,
    schema: &Schema,
    query: &str,
    text: &str,
) -> Result<bool, HeaderFault> {
    let request = DynamicRequest::from(Request::new(alloc, query)?);
    both_come_to(alloc, schema, &request, text)
}

/// A query, and what both calls come to: its headers, how many tasks are begun, and the response.
/// Each key of an object is one task, but `__typename` none, and a refused request begins none.
const ROWS: [(&str, &str); 7] = [
    ("{ o { b } }", r#"a 2; begun 2: {"data":{"o":{"b":1}}}"#),
    (
        "{ o { b c: b } }",
        r#"a 2; a 2; begun 3: {"data":{"o":{"b":1,"c":1}}}"#,
    ),
    (
        "{ o { b } o { c: b } }",
        r#"a 2; a 2; begun 3: {"data":{"o":{"b":1,"c":1}}}"#,
    ),
    (
        "{ o { a b } }",
        r#"a 1; a 2; begun 3: {"data":{"o":null},"errors":[{"message":"x","locations":[{"line":1,"column":7}],"path":["o","a"]}]}"#,
    ),
    (
        "{ o { b ...F } } fragment F on Obj { b __typename }",
        r#"a 2; begun 2: {"data":{"o":{"b":1,"__typename":"Obj"}}}"#,
    ),
    (
        "{ __typename }",
        r#"begun 0: {"data":{"__typename":"Query"}}"#,
    ),
    (
        "{ nope }",
        r#"begun 0: {"data":null,"errors":[{"message":"Unknown field \"nope\" on type \"Query\".","locations":[{"line":1,"column":3}]}]}"#,
    ),
];

/// The first query of which another text comes.
fn first_wrong(
    alloc: Global,
    table: &[(&'static str, &'static str)],
) -> Result<Option<&'static str>, HeaderFault> {
    let schema = schema(alloc, Roots::QueryAlone)?;
    for (query, text) in table {
        if !query_comes_to(alloc, &schema, *query, *text)? {
            return Ok(Some(*query));
        }
    }
    Ok(None)
}

#[test]
fn headers_and_counted_executions(rt: HostRuntime) -> Result<(), Fail> {
    let wrong = first_wrong(rt.alloc(), &ROWS).map_err(|_| AllocError)?;
    assert_eq!(rt; wrong, None);
    Ok(())
}
