ghost use Rattle.std.specs.Prelude.{◌≡◌, [], ◌∷◌, ◌++◌, OnOk, OnErr};
ghost use Rattle.std.specs.List.{list_any};
ghost use Rattle.gql_request.specs.declared.header_op.HeaderOp.TheVariants as op;
ghost use Rattle.gql_resolve.specs.Answer.{touches};

use crate::field_value::FieldValue;
use gql_base::{Error, Items, Made};
use gql_request::HeaderOp;
use http_header::{HeaderName, HeaderValue};

/// What a resolver answers: its value, if any, or its error; errors beside that; and what it does
/// to the headers of the HTTP response.
#[derive(Drop)]
pub struct Answer<V> {
    pub result: Result<Option<FieldValue<V>>, Error>,
    pub added: Items<Error>,
    pub headers: Items<HeaderOp>,
}

impl<V> Answer<V> {
    /// Sets a header to one value.
    pub fn insert_http_header(&mut self, name: HeaderName, value: HeaderValue) -> Made<()>
        ensures ok { OnOk result (self.new ≡ record self.old {
          headers = self.old.headers ++ op.Insert name value ∷ [];
        }) }
        ensures err { OnErr result (self.new ≡ self.old) }
    {
        self.headers.push(HeaderOp::Insert(name, value))
    }

    /// Adds a value to a header.
    pub fn append_http_header(&mut self, name: HeaderName, value: HeaderValue) -> Made<()>
        ensures ok { OnOk result (self.new ≡ record self.old {
          headers = self.old.headers ++ op.Append name value ∷ [];
        }) }
        ensures err { OnErr result (self.new ≡ self.old) }
    {
        self.headers.push(HeaderOp::Append(name, value))
    }

    /// True exactly where the answer sets this header or adds a value to it.
    pub fn http_header_contains(&self, name: &HeaderName) -> bool
        ensures { result ≡ list_any (touches name.now) self.now.headers }
    {
        self.headers
            .as_slice()
            .iter()
            .any(|op| touches_header(op, name))
    }

    /// Adds an error beside the result.
    pub fn add_error(&mut self, error: Error) -> Made<()>
        ensures ok { OnOk result (self.new ≡ record self.old { added = self.old.added ++ error ∷ [] }) }
        ensures err { OnErr result (self.new ≡ self.old) }
    {
        self.added.push(error)
    }
}

fn touches_header(op: &HeaderOp, name: &HeaderName) -> bool
    ensures { result ≡ touches name.now op.now }
{
    match op {
        HeaderOp::Insert(header, _) | HeaderOp::Append(header, _) => header == name,
    }
}

/// What a poll of a future gives: its answer, or that it isn't there yet.
#[derive(Drop)]
pub enum Polled<V> {
    Ready(Answer<V>),
    Pending,
}
