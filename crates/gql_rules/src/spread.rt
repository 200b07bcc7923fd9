//! The fragments of a document, as the rule on uses of variables meets them (GraphQL, October 2021,
//! section 5.8.3).
use gql_base::Items;
use gql_fields::UsePlace;

/// The places of each fragment that matter, and which fragments are spread there.
#[derive(Clone, Copy)]
pub struct Spread<'a> {
    pub places: &'a [Items<UsePlace<'a>>],
    pub graph: &'a [Items<usize>],
}
