//! The headers of responses, each public call with ample memory.
use gql_base::{Items, Made, Text, Value};
use gql_request::{BatchResponse, HeaderFault, HeaderOp, HeaderPairs, Response};
use http_header::{HeaderMap, HeaderName, HeaderValue, MAX_KEYS};
use std::alloc::Global;
use std::test::Fail;

/// An operation: whether it sets its header, or adds to it; the name, and the value.
type Op = (bool, &'static str, &'static str);

/// Sets A to 1, adds 2 to it, and sets B to 3.
const FIRST: [Op; 3] = [(true, "A", "1"), (false, "A", "2"), (true, "B", "3")];

/// Adds 4 and 5 to A, and 6 to C.
const SECOND: [Op; 3] = [(false, "a", "4"), (false, "A", "5"), (false, "C", "6")];

fn name(alloc: Global, text: &str) -> Result<HeaderName, HeaderFault> {
    match HeaderName::from_bytes(alloc, text.as_bytes()) {
        Ok(name) => Ok(name),
        Err(_) => Err(HeaderFault::NoMemory),
    }
}

fn value(alloc: Global, text: &str) -> Result<HeaderValue, HeaderFault> {
    match HeaderValue::from_str(alloc, text) {
        Ok(value) => Ok(value),
        Err(_) => Err(HeaderFault::NoMemory),
    }
}

fn operation(alloc: Global, op: &Op) -> Result<HeaderOp, HeaderFault> {
    let name = name(alloc, op.1)?;
    let value = value(alloc, op.2)?;
    if op.0 {
        Ok(HeaderOp::Insert(name, value))
    } else {
        Ok(HeaderOp::Append(name, value))
    }
}

/// A response without data and with these operations.
fn response(alloc: Global, ops: &[Op]) -> Result<Response, HeaderFault> {
    let mut headers = Items::new(alloc);
    for op in ops {
        headers.push(operation(alloc, op)?)?;
    }
    Ok(Response::new(alloc, Value::Null).with_headers(headers))
}

/// The pairs, one after another.
fn pairs_text(alloc: Global, mut pairs: HeaderPairs) -> Result<Text, HeaderFault> {
    let mut out = String::new(alloc);
    while let Some((name, value)) = pairs.next() {
        let value = value.to_str().unwrap_or("");
        write!(out, "{} {value}; ", name.as_str())?;
    }
    Ok(Text::from_string(out)?)
}

/// A batch of as many responses.
fn batch(alloc: Global, lists: &[&[Op]]) -> Result<BatchResponse, HeaderFault> {
    let mut responses = Items::new(alloc);
    for ops in lists {
        responses.push(response(alloc, ops)?)?;
    }
    Ok(BatchResponse::Batch(responses))
}

/// The headers of a batch of as many responses.
fn batch_text(alloc: Global, lists: &[&[Op]]) -> Result<Text, HeaderFault> {
    let batch = batch(alloc, lists)?;
    pairs_text(alloc, batch.http_headers_iter(alloc)?)
}

#[test]
fn headers_are_folded(rt: HostRuntime) -> Result<(), Fail> {
    let alloc = rt.alloc();
    assert!(rt; batch_text(alloc, &[&FIRST, &SECOND])?.as_str() == "a 4; a 5; b 3; c 6; ");
    Ok(())
}

/// The values under a name, each after a blank.
fn values_text(alloc: Global, map: &HeaderMap, name: &str) -> Result<Text, HeaderFault> {
    let mut out = String::new(alloc);
    for value in map.get_all(name) {
        let value = value.to_str().unwrap_or("");
        write!(out, " {value}")?;
    }
    Ok(Text::from_string(out)?)
}

/// The number of a map's values, and those under each of three names.
fn map_text(alloc: Global, map: &HeaderMap) -> Result<Text, HeaderFault> {
    let a = values_text(alloc, map, "a")?;
    let b = values_text(alloc, map, "B")?;
    let c = values_text(alloc, map, "c")?;
    Ok(Text::from_string(format!(in alloc; "{}; a{a}; b{b}; c{c}", map.len())?)?)
}

fn made_text(alloc: Global, headers: Result<HeaderMap, HeaderFault>) -> Result<Text, HeaderFault> {
    match headers {
        Ok(map) => map_text(alloc, &map),
        Err(fault) => Err(fault),
    }
}

/// The map of a response's headers.
fn response_map(alloc: Global, ops: &[Op]) -> Result<Text, HeaderFault> {
    let response = response(alloc, ops)?;
    made_text(alloc, response.http_headers(alloc))
}

/// The map of the headers of a batch of as many responses.
fn batch_map(alloc: Global, lists: &[&[Op]]) -> Result<Text, HeaderFault> {
    let batch = batch(alloc, lists)?;
    made_text(alloc, batch.http_headers(alloc))
}

#[test]
fn headers_of_one_response_make_a_map(rt: HostRuntime) -> Result<(), Fail> {
    let alloc = rt.alloc();
    assert!(rt; response_map(alloc, &FIRST)?.as_str() == "3; a 1 2; b 3; c");
    Ok(())
}

#[test]
fn headers_of_a_batch_make_a_map(rt: HostRuntime) -> Result<(), Fail> {
    let alloc = rt.alloc();
    assert!(rt; batch_map(alloc, &[&SECOND, &FIRST])?.as_str() == "4; a 1 2; b 3; c 6");
    Ok(())
}

/// A response that adds a value to as many names.
fn many(alloc: Global, count: usize) -> Result<Response, HeaderFault> {
    let mut headers = Items::new(alloc);
    for number in 0..count {
        let text = format!(in alloc; "x-{number}")?;
        let name = name(alloc, text.as_str())?;
        headers.push(HeaderOp::Append(name, HeaderValue::from_static("1")))?;
    }
    Ok(Response::new(alloc, Value::Null).with_headers(headers))
}

/// Whether as many names are one more than a map takes.
fn are_too_many(alloc: Global, count: usize) -> Result<bool, HeaderFault> {
    match many(alloc, count)?.http_headers(alloc) {
        Ok(_) => Ok(false),
        Err(fault) => Ok(fault == HeaderFault::MaxSizeReached),
    }
}

#[test]
fn a_map_is_full(rt: HostRuntime) -> Result<(), Fail> {
    assert!(rt; are_too_many(rt.alloc(), MAX_KEYS + 1)?);
    Ok(())
}
