//! What is kept of tasks until the places under them are there (GraphQL, October 2021, section
//! 6.4.3).
use crate::assembly::bare::Bare;
use crate::parent::Parent;
use gql_base::{Error, Items, Pos};
use gql_request::HeaderOp;
use std::rc::Rc;

/// What a task came to: its place, but for what is under its objects, these objects in their
/// order, and whether the place is kept whole.
#[derive(Drop)]
pub struct Filled<'a, V> {
    pub pos: Pos,
    pub non_null: bool,
    pub added: Items<Error>,
    pub headers: Items<HeaderOp>,
    pub whole: bool,
    pub shape: Bare,
    pub parents: Vec<Rc<Parent<'a, V>>>,
}

/// An answer without its objects, and these, each with its fields.
#[derive(Drop)]
pub struct Placed<'a, V> {
    pub shape: Bare,
    pub parents: Vec<Rc<Parent<'a, V>>>,
}

/// What is kept of a task: its number, the number of the first task under it, their count, and
/// what it came to.
#[derive(Drop)]
pub struct Kept<'a, V> {
    pub number: usize,
    pub first: usize,
    pub count: usize,
    pub filled: Filled<'a, V>,
}
