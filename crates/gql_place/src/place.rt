use gql_base::{Error, Items, Pairs, Pos, Value};
use gql_request::HeaderOp;

/// A place of a response: what came to stand there, before nulls are raised (GraphQL, October 2021,
/// section 6.4).
#[cycle(place)]
#[derive(Debug, Drop)]
pub struct Place {
    /// Where the field stands in the request.
    pub pos: Pos,
    /// Whether null may not stand here.
    pub non_null: bool,
    /// Errors beside the answer.
    pub added: Items<Error>,
    /// What the resolver does to the headers of the HTTP response.
    pub headers: Items<HeaderOp>,
    pub tree: Tree,
}

/// What stands at a place.
#[cycle(place)]
#[derive(Debug, Drop)]
pub enum Tree {
    Absent,
    Leaf(Value),
    Fault(Error),
    Object(Pairs<Place>),
    List(Items<Place>),
}
