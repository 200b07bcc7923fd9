//! Fields that break FieldsInSetCanMerge (GraphQL, October 2021, section 5.3.2).
use gql_base::{Pos, Text};

/// A conflict: a field that can't be merged with the first one of its key, by its place and its
/// key.
#[derive(Drop)]
pub struct Conflict {
    pub pos: Pos,
    pub key: Text,
}
