//! The objects of an answer, each with its fields and its tasks, and what is left of the answer.
ghost use Rattle.std.specs.Prelude.{◌≡◌, ◌++◌, map, true, IfOk, OnOk};
ghost use Rattle.gql_base.specs.TypeRef.{innermost};
ghost use Rattle.gql_collect.specs.Asks.{is_call, type_in};
ghost use Rattle.gql_objects.specs.Parents.{spot_found};
ghost use Rattle.gql_objects.specs.CompletedObjects.{IsPlaced, shape_asked};
ghost use Rattle.gql_complete.specs.FoundObjects.{bare, spots};
ghost use Rattle.gql_objects.specs.Tasks.{jobs_in, path_with};

use crate::assembly::bare::Bare;
use crate::assembly::kept::Placed;
use crate::find_objects::store;
use crate::list_parents::place_list;
use crate::make_parents::place_found;
use crate::parent::{Found, Held};
use crate::paths::steps_with;
use crate::task::Task;
use gql_base::{Error, Made, Name};
use gql_collect::Node;
use gql_complete::{Known, complete_known, object_list};
use gql_place::Shape;
use gql_resolve::FieldValue;
use std::alloc::Global;

/// The innermost name of the type of a field that asks an answer, with what stands under it.
pub fn known_of<'k>(node: &'k Node<'_>) -> Known<'k>
    requires { is_call node.now.asks ≡ true }
    ensures types { result.types.now ≡ node.now.basis.types.now }
    ensures name { result.name.now ≡ innermost (type_in node.now.asks) }
{
    Known {
        types: node.basis.types,
        name: node.asks.ty().type_name(),
        ty: node.ty,
    }
}

/// What a result comes to at the type of a field, without its objects, and these, each with its
/// tasks after the others. A list of objects of one name, which most with many objects are, needs
/// no completion.
pub fn place_answer<'a, V: Drop>(
    alloc: Global,
    held: &Held<'a, V>,
    node: &Node<'a>,
    outcome: Result<Option<FieldValue<V>>, Error>,
    tasks: &mut Vec<Task<'a, V>>,
) -> Made<Placed<'a, V>>
    requires { is_call node.now.asks ≡ true }
    ensures { IfOk result (IsPlaced node.entry.now (path_with held.entry.now node.entry.now)
        (jobs_in tasks.old.items) (jobs_in tasks.new.items) (shape_asked node.entry.now outcome)) }
{
    let known = known_of(node);
    match object_list(&known, node.asks.ty(), &outcome) {
        Some(non_null) => place_list(alloc, held, node, non_null, outcome, tasks),
        None => place_completed(alloc, held, node, outcome, tasks),
    }
}

/// The same of any result, which is completed first.
fn place_completed<'a, V: Drop>(
    alloc: Global,
    held: &Held<'a, V>,
    node: &Node<'a>,
    outcome: Result<Option<FieldValue<V>>, Error>,
    tasks: &mut Vec<Task<'a, V>>,
) -> Made<Placed<'a, V>>
    requires { is_call node.now.asks ≡ true }
    ensures { IfOk result (IsPlaced node.entry.now (path_with held.entry.now node.entry.now)
        (jobs_in tasks.old.items) (jobs_in tasks.new.items) (shape_asked node.entry.now outcome)) }
{
    let whole = complete_asked(alloc, node, outcome)?;
    let mut found = Vec::new(alloc);
    let shape = take_apart(alloc, held, node, whole, &mut found)?;
    let parents = place_found(alloc, node, found, tasks)?;
    Ok(Placed {
        shape: Bare::of(shape),
        parents,
    })
}

/// What a result comes to at the type of a field.
fn complete_asked<V: Drop>(
    alloc: Global,
    node: &Node<'_>,
    outcome: Result<Option<FieldValue<V>>, Error>,
) -> Made<Shape<Name, FieldValue<V>>>
    requires { is_call node.now.asks ≡ true }
    ensures { IfOk result (λ shape. shape ≡ shape_asked node.now outcome) }
{
    let known = known_of(node);
    let shape = complete_known(alloc, &known, node.asks.ty(), outcome)?;
    Ok(shape)
}

/// What is left of a completed answer without its objects, which are found at their paths.
fn take_apart<'a, V: Drop>(
    alloc: Global,
    held: &Held<'a, V>,
    node: &Node<'a>,
    shape: Shape<Name, FieldValue<V>>,
    found: &mut Vec<Found<'a, V>>,
) -> Made<Shape<(), ()>>
    ensures bare { IfOk result (λ left. left ≡ bare shape) }
    ensures found { OnOk result (map spot_found found.new.items ≡ map spot_found found.old.items
        ++ spots shape (path_with held.entry.now node.entry.now)) }
{
    match shape {
        Shape::Absent => Ok(Shape::Absent),
        Shape::Leaf(value) => Ok(Shape::Leaf(value)),
        Shape::Fault(error) => Ok(Shape::Fault(error)),
        Shape::Object(object, value) => {
            let mut path = steps_with(alloc, held, node)?;
            store(alloc, Shape::Object(object, value), &mut path, found)
        }
        Shape::List(non_null, items) => {
            let mut path = steps_with(alloc, held, node)?;
            store(alloc, Shape::List(non_null, items), &mut path, found)
        }
    }
}
