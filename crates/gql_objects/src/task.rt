//! The task of a field: one ExecuteField of an object (GraphQL, October 2021, section 6.4).
ghost use Rattle.std.specs.Prelude.{◌≡◌, true};
ghost use Rattle.gql_collect.specs.Asks.{is_call};

use crate::parent::Parent;
use gql_collect::Node;
use std::rc::Rc;

/// A task: a field that asks an answer, and the object of which it is asked.
#[derive(Drop)]
pub struct Task<'a, V> {
    pub parent: Rc<Parent<'a, V>>,
    pub node: Rc<Node<'a>>,
    pub ghost calls: { is_call node.value.asks ≡ true },
}
