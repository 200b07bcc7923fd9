//! The keys of classes of sets, as the coarse test has them.
use gql_doc::{Field, Positioned};

/// A key of a class of sets: a field that stands for all fields of the key, and the class of the
/// sets under it.
#[derive(Clone, Copy)]
pub(crate) struct Entry<'a> {
    pub class: usize,
    pub field: &'a Positioned<Field>,
    pub beneath: usize,
}
