//! What ResolveFieldValue gives a task, or a hook in its place (GraphQL, October 2021, section
//! 6.4.2).
use gql_base::{Error, Value};
use gql_resolve::Answer;

/// What a task is given: the answer of its resolver, or what a hook puts in its place, which is a
/// leaf, nothing, or a fault.
#[derive(Drop)]
pub enum Given<V> {
    Answered(Answer<V>),
    Put(Result<Option<Value>, Error>),
}
