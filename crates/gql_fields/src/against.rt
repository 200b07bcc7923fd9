//! What the rules look a document up in (GraphQL, October 2021, section 5).
use crate::built_in_arguments::BuiltIn;
use crate::site::Site;
use gql_base::Pairs;
use gql_doc::{FragmentDefinition, Positioned};
use std::alloc::Global;

/// What a document is checked against, with its fragments, and where the memory of the check comes
/// from.
#[derive(Clone, Copy)]
pub struct Against<'a> {
    pub alloc: Global,
    pub site: &'a Site<'a>,
    pub fragments: &'a Pairs<Positioned<FragmentDefinition>>,
    pub built: &'a BuiltIn,
}
