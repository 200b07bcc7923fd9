//! What CollectFields reads the sets of a document by (GraphQL, October 2021, section 6.3.2).
ghost use Rattle.gql_collect.specs.CollectFields.{ReadsAlike};
ghost use Rattle.gql_conflicts.specs.Reader.{setting_by};

use crate::rooted_types::RootedTypes;
use crate::sets::Sets;
use gql_base::Pairs;
use gql_collect::Collector;
use gql_doc::{FragmentDefinition, Positioned};

/// What the sets of a document are read by: the types, the fragments, the sets by their numbers,
/// the levels within which sets nest, and whether each fragment is entered once within a set.
#[derive(Drop)]
pub(crate) struct Reader<'a> {
    pub rooted: &'a RootedTypes<'a>,
    pub fragments: &'a Pairs<Positioned<FragmentDefinition>>,
    pub sets: Sets<'a>,
    pub levels: usize,
    pub once: bool,
}

impl<'a> Reader<'a> {
    /// What CollectFields needs of it.
    pub fn collector(&self) -> Collector<'a>
        ensures { ReadsAlike result (setting_by self.now) }
    {
        Collector {
            types: self.rooted.types,
            fragments: self.fragments,
            levels: self.levels,
        }
    }
}
