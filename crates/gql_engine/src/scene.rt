//! What an execution is for (GraphQL, October 2021, section 6.2).
use gql_request::QueryEnv;
use gql_resolve::{FieldValue, Layers};
use gql_schema::{Object, Types};

/// What an execution is for: a request, the types of its schema, the object at its root, and the
/// root's value.
#[derive(Clone, Copy)]
pub struct Scene<'a, V> {
    pub env: &'a QueryEnv,
    pub types: &'a Types,
    /// The object whose fields the operation asks for.
    pub object: &'a Object,
    /// The name of the query root.
    pub query: &'a str,
    /// The resolver of entities, where there is one.
    pub entities: Option<u32>,
    /// The parent of the root's fields.
    pub root: &'a FieldValue<V>,
    pub layers: Layers<'a>,
    /// Whether the operation is a mutation, whose root keys run one after another.
    pub serial: bool,
}
