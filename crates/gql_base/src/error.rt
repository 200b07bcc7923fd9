ghost use Rattle.std.specs.Prelude.{◌≡◌, ◌↔◌, IsTrue, IfOk, [], ◌∷◌, None};
ghost use Rattle.gql_base.specs.ErrorExtensions.{extended};

use crate::copied::Copied;
use crate::error_extension_values::ErrorExtensionValues;
use crate::items::Items;
use crate::made::Made;
use crate::pos::Pos;
use crate::server_error::{ServerError, same_extensions};
use crate::text::Text;
use std::alloc::Global;

/// An error of a resolver, before it has its place in a response.
#[derive(Debug, Drop)]
pub struct Error {
    /// What went wrong, for a reader.
    pub message: Text,
    /// What the error tells beside its message.
    pub extensions: Option<ErrorExtensionValues>,
}

impl Error {
    /// An error with a message, without extensions.
    pub fn new(alloc: Global, message: &str) -> Made<Error>
        ensures message { IfOk result (λ error. error.message ≡ message.now) }
        ensures extensions { IfOk result (λ error. error.extensions ≡ None) }
    {
        let message = Text::new(alloc, message)?;
        Ok(Error {
            message,
            extensions: None,
        })
    }

    /// This error with these values, in place of its own of the same names.
    pub(crate) fn with_values(self, alloc: Global, values: ErrorExtensionValues) -> Made<Error>
        ensures { IfOk result (λ error. error ≡ extended self values) }
    {
        let Error {
            message,
            extensions,
        } = self;
        let mut all = extensions.unwrap_or(ErrorExtensionValues::new(alloc));
        all.overlay(values)?;
        Ok(Error {
            message,
            extensions: Some(all),
        })
    }

    /// This error at a location, without path.
    pub fn into_server_error(self, alloc: Global, pos: Pos) -> Made<ServerError>
        ensures message { IfOk result (λ error. error.message ≡ self.message) }
        ensures locations { IfOk result (λ error. error.locations ≡ pos ∷ []) }
        ensures path { IfOk result (λ error. error.path ≡ []) }
        ensures extensions { IfOk result (λ error. error.extensions ≡ self.extensions) }
    {
        let Error {
            message,
            extensions,
        } = self;
        let mut locations = Items::new(alloc);
        locations.push(pos)?;
        Ok(ServerError {
            message,
            locations,
            path: Items::new(alloc),
            extensions,
        })
    }
}

impl Copied for Error {
    fn try_clone(&self, alloc: Global) -> Made<Error> {
        Ok(Error {
            message: self.message.try_clone(alloc)?,
            extensions: self.extensions.try_clone(alloc)?,
        })
    }
}

/// Equal where both fields are.
impl PartialEq for Error {
    ghost use Rattle.std.specs.Prelude.{◌≡◌, ◌↔◌, IsTrue};
    ghost use Rattle.gql_base.specs.Same.{is_same, is_same_laws};
    ghost use Rattle.gql_base.specs.contracts.error.Error.{the_row};

    ghost eq = { is_same the_row.coded };

    ghost laws = { is_same_laws the_row.coded };

    fn eq(&self, other: &Error) -> bool
        ensures value { result ≡ is_same the_row.coded self.now other.now }
        ensures decides { IsTrue result ↔ (self.now ≡ other.now) }
    {
        same_error(self, other)
    }
}

fn same_error(a: &Error, b: &Error) -> bool
    ensures { IsTrue result ↔ (a.now ≡ b.now) }
{
    a.message == b.message && same_extensions(&a.extensions, &b.extensions)
}
