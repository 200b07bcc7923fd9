//! A set that has a number.
use gql_doc::{Field, Positioned};

/// A field with a set, and the number of the one before it that is looked up in the same way, if
/// any.
#[derive(Clone, Copy)]
pub(crate) struct Known<'a> {
    pub field: &'a Positioned<Field>,
    pub before: Option<usize>,
}
