//! The places of a whole document that matter to the uses of variables (GraphQL, October 2021,
//! sections 5.8.3 and 5.8.5).
use crate::use_place::UsePlace;
use gql_base::Items;
use gql_doc::{OperationDefinition, Positioned};

/// An operation, and its places that matter to the uses of variables.
#[derive(Drop)]
pub struct OperationPlaces<'a> {
    pub operation: &'a Positioned<OperationDefinition>,
    pub places: Items<UsePlace<'a>>,
}

/// The places of a document that matter to the uses of variables: those of each operation, and
/// those of each fragment.
#[derive(Drop)]
pub struct Listed<'a> {
    pub operations: Items<OperationPlaces<'a>>,
    pub fragments: Items<Items<UsePlace<'a>>>,
}
