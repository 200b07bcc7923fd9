//! The response keys of an object (GraphQL, October 2021, section 6.3.2).
use gql_base::{Name, Pairs};

/// The keys of an object's fields: each key once, where its occurrences are one field, or the key
/// of each occurrence.
#[derive(Drop)]
pub enum Keys {
    Once(Pairs<()>),
    Each(Vec<Name>),
}
