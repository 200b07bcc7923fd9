ghost use Rattle.std.specs.Prelude.{◌≡◌, IfOk};

use crate::place::{Place, Tree};
use gql_base::{Copied, Items, Made, Pairs};
use std::alloc::Global;

impl Copied for Place {
    fn try_clone(&self, alloc: Global) -> Made<Place> {
        copy_place(alloc, self)
    }
}

impl Copied for Tree {
    fn try_clone(&self, alloc: Global) -> Made<Tree> {
        copy_tree(alloc, self)
    }
}

#[cycle(copy)]
pub fn copy_place(alloc: Global, place: &Place) -> Made<Place>
    ensures { IfOk result (λ copy. copy ≡ place.now) }
{
    Ok(Place {
        pos: place.pos,
        non_null: place.non_null,
        added: place.added.try_clone(alloc)?,
        headers: place.headers.try_clone(alloc)?,
        tree: copy_tree(alloc, &place.tree)?,
    })
}

#[cycle(copy)]
fn copy_tree(alloc: Global, tree: &Tree) -> Made<Tree>
    ensures { IfOk result (λ copy. copy ≡ tree.now) }
{
    match tree {
        Tree::Absent => Ok(Tree::Absent),
        Tree::Leaf(value) => Ok(Tree::Leaf(value.try_clone(alloc)?)),
        Tree::Fault(error) => Ok(Tree::Fault(error.try_clone(alloc)?)),
        Tree::Object(members) => Ok(Tree::Object(copy_members(alloc, members)?)),
        Tree::List(items) => Ok(Tree::List(copy_items(alloc, items.as_slice())?)),
    }
}

#[cycle(copy)]
fn copy_members(alloc: Global, members: &Pairs<Place>) -> Made<Pairs<Place>>
    ensures { IfOk result (λ copies. copies ≡ members.now) }
{
    let mut places = Vec::with_capacity(alloc, members.len())?;
    for index in 0..members.len() {
        places.push(copy_place(alloc, members.at(index).1)?)?;
    }
    members.with_values(alloc, places)
}

#[cycle(copy)]
fn copy_items(alloc: Global, items: &[Place]) -> Made<Items<Place>>
    ensures { IfOk result (λ copies. copies ≡ items.now) }
{
    let mut copies = Items::with_capacity(alloc, items.len())?;
    for item in items {
        copies.push(copy_place(alloc, item)?)?;
    }
    Ok(copies)
}
