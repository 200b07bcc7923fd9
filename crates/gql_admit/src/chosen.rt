//! What GetOperation gives (GraphQL, October 2021, section 6.1): the operation that a request runs.
use gql_base::{Pairs, Text};
use gql_doc::{FragmentDefinition, OperationDefinition, Positioned};

/// The operation that a request runs, with its own name, if it has one, and the fragments of its
/// document.
#[derive(Drop)]
pub struct Chosen {
    pub operation_name: Option<Text>,
    pub operation: Positioned<OperationDefinition>,
    pub fragments: Pairs<Positioned<FragmentDefinition>>,
}
