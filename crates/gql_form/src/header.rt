//! The headers that an answer sets or adds to.
ghost use Rattle.gql_form.specs.Faults.{IsRead};
ghost use Rattle.gql_form.specs.Header.{header_name_in, header_value_in};

use crate::fault::Fault;
use crate::form::{Form, Reader};
use crate::kit::{bad, long, nth};
use gql_request::HeaderOp;
use http_header::{HeaderName, HeaderNameError, HeaderValue, HeaderValueError};
use serde_json::Value as Json;

/// What is done to a header.
#[derive(Clone, Copy, PartialEq, Eq)]
pub(crate) enum HeaderWord {
    Insert,
    Append,
}

impl Form for HeaderWord {
    ghost use Rattle.gql_form.specs.Header.{header_word_of};

    ghost reading = { λ cells. header_word_of };

    fn read(reader: Reader, json: &Json) -> Result<HeaderWord, Fault> {
        match json.as_str() {
            Some("insert") => Ok(HeaderWord::Insert),
            Some("append") => Ok(HeaderWord::Append),
            _ => bad(reader),
        }
    }
}

impl Form for HeaderName {
    ghost use Rattle.gql_form.specs.Header.{header_name_of};

    ghost reading = { λ cells. header_name_of };

    fn read(reader: Reader, json: &Json) -> Result<HeaderName, Fault> {
        match json.as_str() {
            Some(text) => read_name(reader, text),
            None => bad(reader),
        }
    }
}

fn read_name(reader: Reader, text: &str) -> Result<HeaderName, Fault>
    ensures { IsRead result (header_name_in text.now) }
{
    match HeaderName::from_bytes(reader.alloc, text.as_bytes()) {
        Ok(name) => Ok(name),
        Err(HeaderNameError::Invalid) => bad(reader),
        Err(HeaderNameError::OutOfMemory) => Err(Fault::NoMemory),
    }
}

impl Form for HeaderValue {
    ghost use Rattle.gql_form.specs.Header.{header_value_of};

    ghost reading = { λ cells. header_value_of };

    fn read(reader: Reader, json: &Json) -> Result<HeaderValue, Fault> {
        match json.as_str() {
            Some(text) => read_value(reader, text),
            None => bad(reader),
        }
    }
}

fn read_value(reader: Reader, text: &str) -> Result<HeaderValue, Fault>
    ensures { IsRead result (header_value_in text.now) }
{
    match HeaderValue::from_str(reader.alloc, text) {
        Ok(value) => Ok(value),
        Err(HeaderValueError::Invalid) => bad(reader),
        Err(HeaderValueError::OutOfMemory) => Err(Fault::NoMemory),
    }
}

impl Form for HeaderOp {
    ghost use Rattle.gql_form.specs.Header.{header_of};

    ghost reading = { λ cells. header_of };

    fn read(reader: Reader, json: &Json) -> Result<HeaderOp, Fault> {
        long(reader, json, 3)?;
        let word = nth(reader, json, 0)?;
        let name = nth(reader, json, 1)?;
        let value = nth(reader, json, 2)?;
        match word {
            HeaderWord::Insert => Ok(HeaderOp::Insert(name, value)),
            HeaderWord::Append => Ok(HeaderOp::Append(name, value)),
        }
    }
}
