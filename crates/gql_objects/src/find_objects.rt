//! Completed answers, taken apart: their objects go into one list, and what is left has no object's
//! value any more.
ghost use Rattle.std.specs.Prelude.{◌≡◌, ◌<◌, [], ◌∷◌, ◌++◌, length, map, IfOk, OnOk};
ghost use Rattle.gql_objects.specs.Parents.{spot_found, steps_by};
ghost use Rattle.gql_objects.specs.Paths.{path_of};
ghost use Rattle.gql_complete.specs.FoundObjects.{bare, numbered, spots};

use crate::parent::{Found, Trail};
use crate::step::Step;
use gql_base::{Items, Made, Name};
use gql_place::Shape;
use gql_resolve::FieldValue;
use std::alloc::Global;
use std::rc::Rc;

/// Stores the objects of a completed answer at a path.
#[cycle(store)]
pub(crate) fn store<'a, V: Drop>(
    alloc: Global,
    shape: Shape<Name, FieldValue<V>>,
    path: &mut Vec<Step<'a>>,
    found: &mut Vec<Found<'a, V>>,
) -> Made<Shape<(), ()>>
    requires { 0 < length path.old.items }
    ensures bare { IfOk result (λ left. left ≡ bare shape) }
    ensures path { OnOk result (path.new.items ≡ path.old.items) }
    ensures found { OnOk result (map spot_found found.new.items
        ≡ map spot_found found.old.items ++ spots shape (path_of path.old.items)) }
{
    match shape {
        Shape::Absent => Ok(Shape::Absent),
        Shape::Leaf(value) => Ok(Shape::Leaf(value)),
        Shape::Fault(error) => Ok(Shape::Fault(error)),
        Shape::Object(object, value) => {
            add_found(alloc, object, value, path, found)?;
            Ok(Shape::Object((), ()))
        }
        Shape::List(non_null, items) => {
            let left = store_items(alloc, items, path, found)?;
            Ok(Shape::List(non_null, left))
        }
    }
}

/// Stores those of items, each at its index.
#[tactic(auto, using(crate::proofs::FoundLemmas::found_more))]
#[cycle(store)]
fn store_items<'a, V: Drop>(
    alloc: Global,
    items: Items<Shape<Name, FieldValue<V>>>,
    path: &mut Vec<Step<'a>>,
    found: &mut Vec<Found<'a, V>>,
) -> Made<Items<Shape<(), ()>>>
    requires { 0 < length path.old.items }
    ensures bare { IfOk result (λ left. left ≡ map bare items) }
    ensures path { OnOk result (path.new.items ≡ path.old.items) }
    ensures found { OnOk result (map spot_found found.new.items
        ≡ map spot_found found.old.items ++ numbered 0 (map spots items) (path_of path.old.items)) }
{
    reserve_objects(items.as_slice(), found)?;
    let mut left = Items::with_capacity(alloc, items.len())?;
    for item in items.into_vec() {
        let depth = path.len();
        path.push(Step::Index(left.len()))?;
        let stored = store(alloc, item, path, found)?;
        path.truncate(depth);
        left.push(stored)?;
    }
    Ok(left)
}

/// Takes room for the objects of a list, where it begins with one.
fn reserve_objects<'a, V: Drop>(
    items: &[Shape<Name, FieldValue<V>>],
    found: &mut Vec<Found<'a, V>>,
) -> Made<()>
    ensures { found.new.items ≡ found.old.items }
{
    match items.first() {
        Some(Shape::Object(_, _)) => found.reserve(items.len()),
        _ => Ok(()),
    }
}

/// Adds an object at a path.
fn add_found<'a, V: Drop>(
    alloc: Global,
    object: Name,
    value: FieldValue<V>,
    path: &[Step<'a>],
    found: &mut Vec<Found<'a, V>>,
) -> Made<()>
    requires { 0 < length path.now }
    ensures { OnOk result (map spot_found found.new.items ≡ map spot_found found.old.items
        ++ record { object = object; parent = value; path = path_of path.entry.now } ∷ []) }
{
    let trail = trail_along(alloc, path)?;
    found.push(Found {
        object,
        value,
        trail,
    })?;
    Ok(())
}

/// The way along steps.
fn trail_along<'a>(alloc: Global, steps: &[Step<'a>]) -> Made<Trail<'a>>
    requires { 0 < length steps.now }
    ensures { IfOk result (λ trail. steps_by trail ≡ steps.entry.now) }
{
    let steps = Rc::new(alloc, copy_steps(alloc, steps)?)?;
    Ok(Trail { steps, index: None })
}

/// A copy of steps.
pub(crate) fn copy_steps<'a>(alloc: Global, steps: &[Step<'a>]) -> Made<Vec<Step<'a>>>
    ensures { IfOk result (λ made. made.items ≡ steps.entry.now) }
{
    let mut made = Vec::with_capacity(alloc, steps.len())?;
    for step in steps {
        made.push(*step)?;
    }
    Ok(made)
}
