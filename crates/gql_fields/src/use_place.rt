//! The places of a document that matter to the uses of variables (GraphQL, October 2021, sections
//! 5.8.3 and 5.8.5).
use gql_doc::{Directive, Field, FragmentSpread, Positioned};
use gql_schema::SchemaType;

/// A place of a document that matters to the uses of variables.
#[derive(Clone, Copy)]
pub enum UsePlace<'a> {
    /// A field with a variable in its arguments, and the type that it stands on.
    Field(&'a SchemaType, &'a Positioned<Field>),
    /// A directive `@skip` or `@include` with a variable in its arguments.
    Directive(&'a Positioned<Directive>),
    Spread(&'a Positioned<FragmentSpread>),
}
