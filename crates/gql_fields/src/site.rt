//! What a schema says of the requests that it admits (GraphQL, October 2021, section 6.1).
use gql_schema::Types;

/// What a request is admitted by: the types, the names of their roots, and the limits.
#[derive(Clone, Copy)]
pub struct Site<'a> {
    pub types: &'a Types,
    /// The name of the query root.
    pub query: &'a str,
    /// The name of the mutation root, where there is one.
    pub mutation: Option<&'a str>,
    /// The name of the subscription root, where there is one.
    pub subscription: Option<&'a str>,
    /// How deep the sets of a document may lie, where the set of an operation has depth 0.
    pub depth: usize,
    /// How many directives a field may have, where there is such a limit.
    pub directives: Option<usize>,
    /// Whether the query root has the field `_entities`.
    pub entities: bool,
}
