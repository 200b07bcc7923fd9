//! The occurrences of one key on an object (GraphQL, October 2021, section 5.3.2).
use crate::asked::Asked;
use gql_doc::{Field, Positioned};

/// The occurrences of one key that ask what the first one asks, and the first that doesn't, if any.
#[derive(Drop)]
pub(crate) struct Group<'a> {
    pub first: Asked<'a>,
    pub more: Vec<&'a Positioned<Field>>,
    pub unlike: Option<&'a Positioned<Field>>,
}
