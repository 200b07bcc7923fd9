//! The steps of the paths that errors tell (GraphQL, October 2021, section 7.1.2).
use gql_base::Name;

/// One step of a path: the key of a field, or the place of an item in its list, counted from 0.
#[derive(Clone, Copy)]
pub enum Step<'a> {
    Key(&'a Name),
    Index(usize),
}
