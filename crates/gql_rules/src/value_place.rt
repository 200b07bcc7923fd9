//! Where a variable stands: a place for a value (GraphQL, October 2021, section 5.8.5).
use gql_base::TypeRef;

/// A place for a value: its type, and whether it has a default.
#[derive(Clone, Copy)]
pub struct ValuePlace<'a> {
    pub ty: &'a TypeRef,
    pub has_default: bool,
}
