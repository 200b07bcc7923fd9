//! The types that the operations of a document stand on (GraphQL, October 2021, section 6.2).
use gql_schema::Types;

/// A table of types with the names of its roots.
#[derive(Clone, Copy)]
pub struct RootedTypes<'a> {
    pub types: &'a Types,
    /// The name of the query root.
    pub query: &'a str,
    /// The name of the mutation root, where there is one.
    pub mutation: Option<&'a str>,
    /// The name of the subscription root, where there is one.
    pub subscription: Option<&'a str>,
    /// Whether the query root has the field `_entities`.
    pub entities: bool,
}
