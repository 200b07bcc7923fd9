//! The objects whose fields are asked: the object values of ExecuteSelectionSet (GraphQL, October
//! 2021, section 6.3), each with its fields and the way to it.
ghost use Rattle.std.specs.Prelude.{◌<◌, length};

use crate::step::Step;
use gql_base::Name;
use gql_collect::Level;
use gql_resolve::FieldValue;
use std::rc::Rc;

/// The way to an object that came of an answer: its steps, of which there is one at least, or, where
/// the object is an item of a list, those to the list, which its items share, and the item's index.
#[derive(Drop)]
pub struct Trail<'a> {
    pub steps: Rc<Vec<Step<'a>>>,
    pub index: Option<usize>,
    pub ghost below: { 0 < length steps.value.items },
}

/// What the objects of a list share: their fields, and the steps to the list.
#[derive(Drop)]
pub struct Shared<'a> {
    pub level: Rc<Level<'a>>,
    pub steps: Rc<Vec<Step<'a>>>,
    pub ghost below: { 0 < length steps.value.items },
}

/// An object that came of an answer: the name of its type, its value, and the way to it.
#[derive(Drop)]
pub struct Found<'a, V> {
    pub object: Name,
    pub value: FieldValue<V>,
    pub trail: Trail<'a>,
}

/// The value of which the fields of an object are asked: that of the root, or one that came of an
/// answer, with the way to it.
#[derive(Drop)]
pub enum Held<'a, V> {
    Root(&'a FieldValue<V>),
    Found(FieldValue<V>, Trail<'a>),
}

/// An object whose fields are asked: its fields, and its value.
#[derive(Drop)]
pub struct Parent<'a, V> {
    pub level: Rc<Level<'a>>,
    pub held: Held<'a, V>,
}
