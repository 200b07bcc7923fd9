ghost use Rattle.std.specs.Prelude.{◌≡◌, ◌↔◌, IsTrue, IfOk, [], ◌∷◌, None};
ghost use Rattle.std.specs.Option.{option_to_list};

use crate::copied::Copied;
use crate::error_extension_values::ErrorExtensionValues;
use crate::items::Items;
use crate::made::Made;
use crate::path_segment::PathSegment;
use crate::pos::Pos;
use crate::text::Text;
use std::alloc::Global;
use std::fmt;

/// An error of a response (GraphQL, October 2021, section 7.1.2).
#[derive(Debug, Drop)]
pub struct ServerError {
    /// What went wrong, for a reader.
    pub message: Text,
    /// The places in the document that belong to it.
    pub locations: Items<Pos>,
    /// The path to the field of the response at which it happened, or none.
    pub path: Items<PathSegment>,
    /// What the error tells beside its message.
    pub extensions: Option<ErrorExtensionValues>,
}

/// The result of what fails with an error of a response.
pub type ServerResult<T> = Result<T, ServerError>;

impl ServerError {
    /// An error with a message and at most one location, without path and extensions.
    pub fn new(alloc: Global, message: &str, pos: Option<Pos>) -> Made<ServerError>
        ensures message { IfOk result (λ error. error.message ≡ message.now) }
        ensures locations { IfOk result (λ error. error.locations ≡ option_to_list pos) }
        ensures path { IfOk result (λ error. error.path ≡ []) }
        ensures extensions { IfOk result (λ error. error.extensions ≡ None) }
    {
        let message = Text::new(alloc, message)?;
        let mut locations = Items::new(alloc);
        if let Some(pos) = pos {
            locations.push(pos)?;
        }
        Ok(ServerError {
            message,
            locations,
            path: Items::new(alloc),
            extensions: None,
        })
    }

    /// This error at a path, in place of the one that it had.
    pub fn with_path(self, path: Items<PathSegment>) -> ServerError
        ensures { result ≡ record self { path = path } }
    {
        ServerError { path, ..self }
    }

    /// The list of this error alone.
    pub fn into_list(self, alloc: Global) -> Made<Items<ServerError>>
        ensures { IfOk result (λ errors. errors ≡ self ∷ []) }
    {
        let mut errors = Items::new(alloc);
        errors.push(self)?;
        Ok(errors)
    }
}

/// The message.
impl fmt::Display for ServerError {
    ghost use Rattle.std.specs.Prelude.{Some};

    ghost output = { λ error. Some error.message };

    fn fmt<W: fmt::Write>(&self, f: &mut fmt::Formatter<W>) -> fmt::Result {
        f.write_str(self.message.as_str())
    }
}

impl Copied for ServerError {
    fn try_clone(&self, alloc: Global) -> Made<ServerError> {
        Ok(ServerError {
            message: self.message.try_clone(alloc)?,
            locations: self.locations.try_clone(alloc)?,
            path: self.path.try_clone(alloc)?,
            extensions: self.extensions.try_clone(alloc)?,
        })
    }
}

/// Equal where all the fields are.
impl PartialEq for ServerError {
    ghost use Rattle.std.specs.Prelude.{◌≡◌, ◌↔◌, IsTrue};
    ghost use Rattle.gql_base.specs.Same.{is_same, is_same_laws};
    ghost use Rattle.gql_base.specs.contracts.server_error.ServerError.{the_row};

    ghost eq = { is_same the_row.coded };

    ghost laws = { is_same_laws the_row.coded };

    fn eq(&self, other: &ServerError) -> bool
        ensures value { result ≡ is_same the_row.coded self.now other.now }
        ensures decides { IsTrue result ↔ (self.now ≡ other.now) }
    {
        same_server_error(self, other)
    }
}

fn same_server_error(a: &ServerError, b: &ServerError) -> bool
    ensures { IsTrue result ↔ (a.now ≡ b.now) }
{
    a.message == b.message
        && same_locations(&a.locations, &b.locations)
        && same_path(&a.path, &b.path)
        && same_extensions(&a.extensions, &b.extensions)
}

fn same_locations(a: &Items<Pos>, b: &Items<Pos>) -> bool
    ensures { IsTrue result ↔ (a.now ≡ b.now) }
{
    a == b
}

fn same_path(a: &Items<PathSegment>, b: &Items<PathSegment>) -> bool
    ensures { IsTrue result ↔ (a.now ≡ b.now) }
{
    a == b
}

/// True exactly where both are none, or both are there and equal.
pub(crate) fn same_extensions(
    a: &Option<ErrorExtensionValues>,
    b: &Option<ErrorExtensionValues>,
) -> bool
    ensures { IsTrue result ↔ (a.now ≡ b.now) }
{
    match (a, b) {
        (None, None) => true,
        (Some(x), Some(y)) => x == y,
        _ => false,
    }
}
