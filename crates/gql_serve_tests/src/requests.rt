//! Requests, and the JSON of what is answered to them.
use gql_base::{Made, NoMemory, Text};
use gql_exec::DynamicRequest;
use gql_request::{Request, Response};
use std::alloc::{AllocError, Global};

/// The request for a text, without a value for its root.
pub fn request(alloc: Global, text: &str) -> Made<DynamicRequest<u64>> {
    Ok(DynamicRequest::from(Request::new(alloc, text)?))
}

/// The JSON of an answer. Of one that is no response comes an error, so that the test fails.
pub fn answer_json(alloc: Global, answer: &Result<Response, NoMemory>) -> Made<Text> {
    match answer {
        Ok(response) => response.json(alloc),
        Err(_) => Err(AllocError),
    }
}

/// Whether an answer is the response with this JSON.
pub fn is_answer(alloc: Global, answer: &Result<Response, NoMemory>, json: &str) -> Made<bool> {
    let text = answer_json(alloc, answer)?;
    Ok(text.as_str() == json)
}
