//! The grouped field set that CollectFields gives (GraphQL, October 2021, section 6.3.2).
ghost use Rattle.std.specs.Prelude.{◌≡◌, length};
ghost use Rattle.gql_collect.specs.KeyNames.{names_in};

use crate::key_names::Keys;
use gql_doc::{Field, Positioned};

/// Occurrences of one key. The first of them counts, with the sets of all.
#[derive(Drop)]
pub struct Group<'a> {
    pub first: &'a Positioned<Field>,
    pub more: Vec<&'a Positioned<Field>>,
}

/// Groups under their keys, in the order of first occurrences.
#[derive(Drop)]
pub struct Groups<'a> {
    pub keys: Keys,
    pub groups: Vec<Group<'a>>,
    pub ghost paired: { length groups.items ≡ length (names_in keys) },
}
