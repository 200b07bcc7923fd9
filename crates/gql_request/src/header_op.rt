ghost use Rattle.std.specs.Prelude.{◌≡◌, ◌↔◌, IsTrue};

use gql_base::{Copied, Made};
use http_header::{HeaderName, HeaderValue};
use std::alloc::Global;

/// What a resolver does to the headers of the HTTP response.
#[derive(Debug, Drop)]
pub enum HeaderOp {
    /// Sets a header to one value.
    Insert(HeaderName, HeaderValue),
    /// Adds a value to a header.
    Append(HeaderName, HeaderValue),
}

impl Copied for HeaderOp {
    fn try_clone(&self, _alloc: Global) -> Made<HeaderOp> {
        match self {
            HeaderOp::Insert(name, value) => Ok(HeaderOp::Insert(name.clone()?, value.clone()?)),
            HeaderOp::Append(name, value) => Ok(HeaderOp::Append(name.clone()?, value.clone()?)),
        }
    }
}

/// Operations are equal where they are of one kind with the same name and the same value, and both
/// values are kept out of logs or neither is: a plain comparison of values looks at their bytes
/// alone.
impl PartialEq for HeaderOp {
    ghost use Rattle.std.specs.Prelude.{◌≡◌, ◌↔◌, IsTrue};
    ghost use Rattle.gql_base.specs.Same.{is_same, is_same_laws};
    ghost use Rattle.gql_request.specs.contracts.header_op.HeaderOp.{the_row};

    ghost eq = { is_same the_row.coded };

    ghost laws = { is_same_laws the_row.coded };

    fn eq(&self, other: &HeaderOp) -> bool
        ensures value { result ≡ is_same the_row.coded self.now other.now }
        ensures decides { IsTrue result ↔ (self.now ≡ other.now) }
    {
        same_op(self, other)
    }
}

impl Eq for HeaderOp {
    ghost use Rattle.gql_base.specs.Same.{is_same_equivalence};
    ghost use Rattle.gql_request.specs.contracts.header_op.HeaderOp.{the_row};

    ghost laws = { is_same_equivalence the_row.coded };
}

fn same_op(a: &HeaderOp, b: &HeaderOp) -> bool
    ensures { IsTrue result ↔ (a.now ≡ b.now) }
{
    match (a, b) {
        (HeaderOp::Insert(name, value), HeaderOp::Insert(other_name, other_value)) => {
            name == other_name && same_header_value(value, other_value)
        }
        (HeaderOp::Append(name, value), HeaderOp::Append(other_name, other_value)) => {
            name == other_name && same_header_value(value, other_value)
        }
        _ => false,
    }
}

/// Whether two values have the same bytes, and the same answer to whether they are kept out of
/// logs.
fn same_header_value(a: &HeaderValue, b: &HeaderValue) -> bool
    ensures { IsTrue result ↔ (a.now ≡ b.now) }
{
    a == b && a.is_sensitive() == b.is_sensitive()
}
