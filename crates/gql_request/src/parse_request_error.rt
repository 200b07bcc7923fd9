use gql_base::{Copied, Made};
use std::alloc::Global;
use std::fmt;

/// Why a value is no request, or a batch no single request.
#[derive(Clone, Copy, Debug)]
pub enum ParseRequestError {
    /// The value doesn't have the form of a request.
    InvalidRequest(&'static str),
    /// A single request was wanted.
    UnsupportedBatch,
}

impl fmt::Display for ParseRequestError {
    ghost use Rattle.std.specs.Prelude.{Some};
    ghost use Rattle.gql_request.specs.ParseRequestError.{error_text};

    ghost output = { λ error. Some (error_text error) };

    fn fmt<W: fmt::Write>(&self, f: &mut fmt::Formatter<W>) -> fmt::Result {
        match self {
            ParseRequestError::InvalidRequest(reason) => write!(f, "Invalid request: {reason}"),
            ParseRequestError::UnsupportedBatch => f.write_str("Batch requests are not supported"),
        }
    }
}

impl Copied for ParseRequestError {
    fn try_clone(&self, _alloc: Global) -> Made<ParseRequestError> {
        Ok(*self)
    }
}
