//! Responses, each public call with ample memory.
use gql_base::{Copied, Items, Made, Number, Pairs, ServerError, Text, Value};
use gql_request::{BatchResponse, Response};
use std::alloc::Global;
use std::test::Fail;

fn number(number: u64) -> Value {
    Value::Number(Number::from_u64(number))
}

/// A response with some data, extensions, and as many errors as wanted.
fn response(alloc: Global, errors: usize) -> Made<Response> {
    let mut response = Response::new(alloc, Value::object(alloc, Pairs::new(alloc))?);
    for _ in 0..errors {
        response.errors.push(ServerError::new(alloc, "e", None)?)?;
    }
    response
        .extension("b", number(2))?
        .extension("a", number(0))?
        .extension("a", number(1))
}

fn data_text(alloc: Global) -> Made<Text> {
    Response::new(alloc, Value::Boolean(true)).json(alloc)
}

fn errors_text(alloc: Global) -> Made<Text> {
    let errors = ServerError::new(alloc, "bad", None)?.into_list(alloc)?;
    Response::from_errors(alloc, errors).json(alloc)
}

fn whole_text(alloc: Global) -> Made<Text> {
    response(alloc, 2)?.json(alloc)
}

/// What is printed of a response with two errors.
const WHOLE: &str =
    r#"{"data":{},"extensions":{"a":1,"b":2},"errors":[{"message":"e"},{"message":"e"}]}"#;

#[test]
fn responses_are_printed(rt: HostRuntime) -> Result<(), Fail> {
    let bad = r#"{"data":null,"errors":[{"message":"bad"}]}"#;
    assert!(rt; data_text(rt.alloc())?.as_str() == r#"{"data":true}"#);
    assert!(rt; errors_text(rt.alloc())?.as_str() == bad);
    assert!(rt; whole_text(rt.alloc())?.as_str() == WHOLE);
    Ok(())
}

/// The JSON of two responses, of which one has an error, with whether both are without errors.
fn two_text(alloc: Global) -> Made<Text> {
    let mut responses = Items::new(alloc);
    responses.push(Response::new(alloc, number(1)))?;
    responses.push(response(alloc, 1)?)?;
    let batch = BatchResponse::Batch(responses).try_clone(alloc)?;
    batch_text(alloc, batch)
}

fn batch_text(alloc: Global, batch: BatchResponse) -> Made<Text> {
    let json = batch.json(alloc)?;
    Text::from_string(format!(in alloc; "{json} {}", batch.is_ok())?)
}

const TWO: &str =
    r#"[{"data":1},{"data":{},"extensions":{"a":1,"b":2},"errors":[{"message":"e"}]}] false"#;

#[test]
fn batches_are_printed(rt: HostRuntime) -> Result<(), Fail> {
    assert!(rt; two_text(rt.alloc())?.as_str() == TWO);
    Ok(())
}

/// Whether a response equals its copy.
fn equals_its_copy(alloc: Global, response: &Response) -> Made<bool> {
    let copy = response.try_clone(alloc)?;
    Ok(*response == copy)
}

#[test]
fn responses_are_compared(rt: HostRuntime) -> Result<(), Fail> {
    let response = response(rt.alloc(), 1)?;
    assert!(rt; response.is_err() && !response.is_ok());
    assert!(rt; equals_its_copy(rt.alloc(), &response)?);
    Ok(())
}

/// The number of errors that a response gives in place of itself, if it does.
fn errors_of(response: Response) -> Option<usize> {
    match response.into_result() {
        Ok(_) => None,
        Err(errors) => Some(errors.len()),
    }
}

#[test]
fn responses_as_results(rt: HostRuntime) -> Result<(), Fail> {
    assert_eq!(rt; errors_of(response(rt.alloc(), 1)?), Some(1));
    Ok(())
}
