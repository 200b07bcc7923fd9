//! The named types that answers are completed at (GraphQL, October 2021, section 6.4.3).
ghost use Rattle.gql_collect.specs.Known.{IsUnder, copied_set};

use gql_schema::{SchemaType, Types};

/// A name of a type with what stands under it in a table of types.
#[derive(Clone, Copy)]
pub struct Known<'a> {
    pub types: &'a Types,
    pub name: &'a str,
    pub ty: Option<&'a SchemaType>,
    pub ghost looked_up: { IsUnder types.now name.now ty } by { copied_set ty-code },
}
