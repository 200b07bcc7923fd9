ghost use Rattle.std.specs.Prelude.{◌≡◌, IfOk, OnOk};
ghost use Rattle.gql_base.specs.Pairs.{unite_all};
ghost use Rattle.gql_place.specs.Join.{join as joined, join_trees, join_items};

use crate::place::{Place, Tree};
use gql_base::{Copied, Items, Made, Pairs};
use std::alloc::Global;

/// Two places of one key as one: the first's position, added errors and header operations stay.
/// Objects are united key by key, first keys first, and lists item by item, where further items of
/// the second are left out. Of other trees the first stays. No part is copied.
pub fn join(alloc: Global, first: Place, second: Place) -> Made<Place>
    ensures { IfOk result (λ made. made ≡ joined first second) }
{
    let mut made = first;
    join_onto(alloc, second, &mut made)?;
    Ok(made)
}

/// Joins a second place onto the first. The recursion ends by the depth of the second.
#[cycle(join)]
pub fn join_onto(alloc: Global, second: Place, first: &mut Place) -> Made<()>
    ensures { OnOk result (first.new ≡ joined first.old second) }
{
    join_tree(alloc, second.tree, &mut first.tree)
}

#[cycle(join)]
fn join_tree(alloc: Global, second: Tree, first: &mut Tree) -> Made<()>
    ensures { OnOk result (first.new ≡ join_trees first.old second) }
{
    match second {
        Tree::Object(others) => join_object(alloc, others, first),
        Tree::List(others) => join_list(alloc, others, first),
        Tree::Absent | Tree::Leaf(_) | Tree::Fault(_) => Ok(()),
    }
}

/// Joins the members of an object onto a tree, which stays where it is no object.
#[cycle(join)]
#[tactic(auto, using(crate::proofs::JoinLemmas::joined_objects))]
fn join_object(alloc: Global, others: Pairs<Place>, first: &mut Tree) -> Made<()>
    ensures { OnOk result (first.new ≡ join_trees first.old (Tree.Object others)) }
{
    match first {
        Tree::Object(members) => join_members(alloc, others, members),
        Tree::Absent | Tree::Leaf(_) | Tree::Fault(_) | Tree::List(_) => Ok(()),
    }
}

/// Joins the items of a list onto a tree, which stays where it is no list.
#[cycle(join)]
fn join_list(alloc: Global, others: Items<Place>, first: &mut Tree) -> Made<()>
    ensures { OnOk result (first.new ≡ join_trees first.old (Tree.List others)) }
{
    match first {
        Tree::List(items) => join_each(alloc, others, items),
        Tree::Absent | Tree::Leaf(_) | Tree::Fault(_) | Tree::Object(_) => Ok(()),
    }
}

#[cycle(join)]
fn join_members(alloc: Global, others: Pairs<Place>, members: &mut Pairs<Place>) -> Made<()>
    ensures { OnOk result (members.new ≡ unite_all joined members.old others) }
{
    let (names, places) = others.into_parts();
    let mut places = places.into_iter();
    for index in 0..names.len() {
        let Some(other) = places.next() else {
            return Ok(());
        };
        let name = names.name_at(index);
        let key = name.as_str();
        match members.get_mut(key) {
            Some(member) => join_onto(alloc, other, member)?,
            None => members.add_fresh(name.try_clone(alloc)?, other)?,
        }
    }
    Ok(())
}

#[cycle(join)]
fn join_each(alloc: Global, others: Items<Place>, items: &mut Items<Place>) -> Made<()>
    ensures { OnOk result (items.new ≡ join_items items.old others) }
{
    let mut others = others.into_vec().into_iter();
    for index in 0..items.len() {
        let Some(other) = others.next() else {
            return Ok(());
        };
        join_onto(alloc, other, items.at_mut(index))?;
    }
    Ok(())
}
