ghost use Rattle.std.specs.Prelude.{◌≡◌, ◌↔◌, ◌<◌, ◌++◌, [], length, IsTrue, IfOk, OnOk};
ghost use Rattle.std.specs.Prelude.{IsErrOf, MatchResult, Some, string_bytes};
ghost use Rattle.gql_base.specs.ErrorExtensionValues.{set_in_order};
ghost use Rattle.gql_base.specs.ErrorJson.{extensions_member};
ghost use Rattle.gql_request.specs.Headers.{Overflows, headers_of};
ghost use Rattle.gql_request.specs.Response.{errors_member, response_json};

use crate::header_fault::HeaderFault;
use crate::header_folding::fold_ops;
use crate::header_op::HeaderOp;
use gql_base::{
    Copied, ErrorExtensionValues, Items, JsonText, Made, ServerError, Text, Value, push_errors,
    push_extension_values, push_json,
};
use http_header::HeaderMap;
use std::alloc::Global;

/// A response (GraphQL, October 2021, section 7.1).
#[derive(Debug, Drop)]
pub struct Response {
    /// The data.
    pub result: Value,
    /// What the response tells beside its data.
    pub extensions: ErrorExtensionValues,
    pub errors: Items<ServerError>,
    /// What is done to the headers of the HTTP response, in order.
    pub headers: Items<HeaderOp>,
}

impl Response {
    /// A response with this data alone.
    pub fn new(alloc: Global, value: Value) -> Response
        ensures { result ≡ record { result = value; extensions = []; errors = []; headers = [] } }
    {
        Response {
            result: value,
            extensions: ErrorExtensionValues::new(alloc),
            errors: Items::new(alloc),
            headers: Items::new(alloc),
        }
    }

    /// A response with these errors and no data.
    pub fn from_errors(alloc: Global, errors: Items<ServerError>) -> Response
        ensures { result
            ≡ record { result = Value.Null; extensions = []; errors = errors; headers = [] } }
    {
        Response {
            result: Value::Null,
            extensions: ErrorExtensionValues::new(alloc),
            errors,
            headers: Items::new(alloc),
        }
    }

    /// This response with one more extension, in place of one of its name.
    pub fn extension(mut self, name: &str, value: Value) -> Made<Response>
        ensures { IfOk result
            (λ response. response
            ≡ record self { extensions = set_in_order self.extensions name.now value }) }
    {
        self.extensions.set(name, value)?;
        Ok(self)
    }

    /// This response with these operations on headers in place of its own.
    pub fn with_headers(self, headers: Items<HeaderOp>) -> Response
        ensures { result ≡ record self { headers = headers } }
    {
        Response { headers, ..self }
    }

    /// The map that the operations on headers make, one after another, from the empty one. Where
    /// an operation meets a full map, that is the answer.
    pub fn http_headers(&self, alloc: Global) -> Result<HeaderMap, HeaderFault>
        ensures ok { IfOk result (λ headers. headers ≡ headers_of self.now) }
        ensures room { OnOk result (¬ (Overflows [] self.now.headers)) }
        ensures full { IsErrOf result HeaderFault.MaxSizeReached → Overflows [] self.now.headers }
    {
        fold_ops(HeaderMap::new(alloc), self.headers.as_slice())
    }

    /// True exactly where there is no error.
    pub fn is_ok(&self) -> bool
        ensures { IsTrue result ↔ (self.now.errors ≡ []) }
    {
        self.errors.is_empty()
    }

    /// True exactly where there is an error.
    pub fn is_err(&self) -> bool
        ensures { IsTrue result ↔ (0 < length self.now.errors) }
    {
        self.errors.len() > 0
    }

    /// The response where it has no error, else its errors.
    pub fn into_result(self) -> Result<Response, Items<ServerError>>
        ensures { MatchResult result (λ response. (response ≡ self) × (self.errors ≡ []))
            (λ errors. (errors ≡ self.errors) × (0 < length self.errors)) }
    {
        if self.is_ok() {
            Ok(self)
        } else {
            Err(self.errors)
        }
    }

    /// The JSON text of the response: its data, and then its extensions and errors, each if there
    /// are any.
    pub fn json(&self, alloc: Global) -> Made<Text>
        ensures { IfOk result (λ text. text ≡ response_json self.now) }
    {
        let mut out = String::new(alloc);
        push_response(&mut out, self)?;
        Text::from_string(out)
    }
}

impl JsonText for Response {
    ghost use Rattle.gql_request.specs.Response.{response_json};

    ghost text = { response_json };

    fn push_text(&self, out: &mut String) -> Made<()> {
        push_response(out, self)
    }
}

/// Appends the JSON text of a response.
pub fn push_response(out: &mut String, response: &Response) -> Made<()>
    ensures { OnOk result (string_bytes out.new ≡ string_bytes out.old
        ++ response_json response.now) }
{
    out.push_str("{\"data\":")?;
    push_json(out, &response.result)?;
    push_extensions(out, &response.extensions)?;
    push_error_list(out, response.errors.as_slice())?;
    out.push('}')
}

fn push_extensions(out: &mut String, extensions: &ErrorExtensionValues) -> Made<()>
    ensures { OnOk result (string_bytes out.new ≡ string_bytes out.old
        ++ extensions_member (Some extensions.now)) }
{
    if extensions.len() == 0 {
        return Ok(());
    }
    out.push_str(",\"extensions\":")?;
    push_extension_values(out, extensions)
}

fn push_error_list(out: &mut String, errors: &[ServerError]) -> Made<()>
    ensures { OnOk result (string_bytes out.new ≡ string_bytes out.old
        ++ errors_member errors.now) }
{
    if errors.is_empty() {
        return Ok(());
    }
    out.push_str(",\"errors\":")?;
    push_errors(out, errors)
}

impl Copied for Response {
    fn try_clone(&self, alloc: Global) -> Made<Response> {
        Ok(Response {
            result: self.result.try_clone(alloc)?,
            extensions: self.extensions.try_clone(alloc)?,
            errors: self.errors.try_clone(alloc)?,
            headers: self.headers.try_clone(alloc)?,
        })
    }
}

/// Equal where all the fields are.
impl PartialEq for Response {
    ghost use Rattle.std.specs.Prelude.{◌≡◌, ◌↔◌, IsTrue};
    ghost use Rattle.gql_base.specs.Same.{is_same, is_same_laws};
    ghost use Rattle.gql_request.specs.contracts.response.Response.{the_row};

    ghost eq = { is_same the_row.coded };

    ghost laws = { is_same_laws the_row.coded };

    fn eq(&self, other: &Response) -> bool
        ensures value { result ≡ is_same the_row.coded self.now other.now }
        ensures decides { IsTrue result ↔ (self.now ≡ other.now) }
    {
        same_response(self, other)
    }
}

fn same_response(a: &Response, b: &Response) -> bool
    ensures { IsTrue result ↔ (a.now ≡ b.now) }
{
    a.result == b.result
        && a.extensions == b.extensions
        && same_errors(&a.errors, &b.errors)
        && same_headers(&a.headers, &b.headers)
}

fn same_errors(a: &Items<ServerError>, b: &Items<ServerError>) -> bool
    ensures { IsTrue result ↔ (a.now ≡ b.now) }
{
    a == b
}

fn same_headers(a: &Items<HeaderOp>, b: &Items<HeaderOp>) -> bool
    ensures { IsTrue result ↔ (a.now ≡ b.now) }
{
    a == b
}
