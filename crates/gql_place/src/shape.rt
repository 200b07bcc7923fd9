use gql_base::{Error, Items, Value};

/// What an answer comes to by the type of its field (GraphQL, October 2021, section 6.4.3): an
/// object is named with the value that its fields are asked of, and has no members yet.
#[derive(Debug, Drop)]
pub enum Shape<O, P> {
    Absent,
    Leaf(Value),
    Fault(Error),
    Object(O, P),
    /// Items, and whether null may not stand at them.
    List(bool, Items<Shape<O, P>>),
}
