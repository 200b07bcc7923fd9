ghost use Rattle.std.specs.Prelude.{◌≡◌, IfOk, map, option_map};
ghost use Rattle.gql_place.specs.Raised.{all_items, raised, value_at as value_of};
ghost use Rattle.gql_place.specs.Raised.{member_values as values_of_members};
ghost use Rattle.gql_place.specs.Raised.{tree_value as value_of_tree};

use crate::place::{Place, Tree};
use gql_base::{Copied, Items, Made, Pairs, Value};
use std::alloc::Global;

/// The value of a whole response: a failed place is null where it may be null, and else makes the
/// place around it fail (GraphQL, October 2021, section 6.4.4).
pub fn raise(alloc: Global, place: &Place) -> Made<Value>
    ensures { IfOk result (λ value. value ≡ raised place.now) }
{
    raise_moved(alloc, place.try_clone(alloc)?)
}

/// The same of a place that is used up: the values in it are moved and not copied.
pub fn raise_moved(alloc: Global, place: Place) -> Made<Value>
    ensures { IfOk result (λ value. value ≡ raised place) }
{
    match value_at(alloc, place)? {
        Some(value) => Ok(value),
        None => Ok(Value::Null),
    }
}

/// The value of a place, or none where it fails and can't be null.
#[cycle(raise)]
fn value_at(alloc: Global, place: Place) -> Made<Option<Value>>
    ensures { IfOk result (λ value. value ≡ value_of place) }
{
    match tree_value(alloc, place.tree)? {
        Some(value) => Ok(Some(value)),
        None if place.non_null => Ok(None),
        None => Ok(Some(Value::Null)),
    }
}

#[cycle(raise)]
fn tree_value(alloc: Global, tree: Tree) -> Made<Option<Value>>
    ensures { IfOk result (λ value. value ≡ value_of_tree tree) }
{
    match tree {
        Tree::Absent => Ok(Some(Value::Null)),
        Tree::Leaf(value) => Ok(Some(value)),
        Tree::Fault(_) => Ok(None),
        Tree::Object(members) => match member_values(alloc, members)? {
            Some(values) => Ok(Some(Value::object(alloc, values)?)),
            None => Ok(None),
        },
        Tree::List(items) => match values_in(alloc, items.into_vec())? {
            Some(values) => Ok(Some(Value::list(alloc, Items::from_vec(values))?)),
            None => Ok(None),
        },
    }
}

#[cycle(raise)]
fn member_values(alloc: Global, members: Pairs<Place>) -> Made<Option<Pairs<Value>>>
    ensures { IfOk result (λ values. values ≡ values_of_members members) }
{
    let (names, places) = members.into_parts();
    match values_in(alloc, places)? {
        Some(values) => Ok(Some(Pairs::from_parts(names, values))),
        None => Ok(None),
    }
}

/// The values of some places, all or none.
#[cycle(raise)]
fn values_in(alloc: Global, places: Vec<Place>) -> Made<Option<Vec<Value>>>
    ensures { IfOk result (λ values. option_map (λ v. v.items) values
        ≡ all_items (map value_of places.items)) }
{
    let mut values = Vec::with_capacity(alloc, places.len())?;
    for place in places {
        match value_at(alloc, place)? {
            Some(value) => values.push(value)?,
            None => return Ok(None),
        }
    }
    Ok(Some(values))
}
