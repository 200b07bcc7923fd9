ghost use Rattle.std.specs.Prelude.{◌≡◌, ◌++◌, IfOk, OnOk};
ghost use Rattle.std.specs.List.{flat_map};
ghost use Rattle.gql_place.specs.HeaderOps.{ops_of, tree_ops};

use crate::place::{Place, Tree};
use gql_base::{Copied, Items, Made, Pairs};
use gql_request::HeaderOp;
use std::alloc::Global;

/// What all places of a response do to the headers of the HTTP response, a place before those
/// under it, nulled or not.
pub fn header_ops(alloc: Global, place: &Place) -> Made<Items<HeaderOp>>
    ensures { IfOk result (λ ops. ops ≡ ops_of place.now) }
{
    let mut ops = Items::new(alloc);
    push_place(alloc, &mut ops, place)?;
    Ok(ops)
}

#[cycle(headers)]
fn push_place(alloc: Global, ops: &mut Items<HeaderOp>, place: &Place) -> Made<()>
    ensures { OnOk result (ops.new ≡ ops.old ++ ops_of place.now) }
{
    push_own(alloc, ops, place.headers.as_slice())?;
    push_tree(alloc, ops, &place.tree)
}

fn push_own(alloc: Global, ops: &mut Items<HeaderOp>, own: &[HeaderOp]) -> Made<()>
    ensures { OnOk result (ops.new ≡ ops.old ++ own.now) }
{
    for op in own {
        ops.push(op.try_clone(alloc)?)?;
    }
    Ok(())
}

#[cycle(headers)]
fn push_tree(alloc: Global, ops: &mut Items<HeaderOp>, tree: &Tree) -> Made<()>
    ensures { OnOk result (ops.new ≡ ops.old ++ tree_ops tree.now) }
{
    match tree {
        Tree::Absent | Tree::Leaf(_) | Tree::Fault(_) => Ok(()),
        Tree::Object(members) => push_members(alloc, ops, members),
        Tree::List(items) => push_items(alloc, ops, items.as_slice()),
    }
}

#[cycle(headers)]
fn push_members(alloc: Global, ops: &mut Items<HeaderOp>, members: &Pairs<Place>) -> Made<()>
    ensures { OnOk result (ops.new ≡ ops.old ++ flat_map (λ member. ops_of member.1) members.now) }
{
    for index in 0..members.len() {
        let (_, member) = members.at(index);
        push_place(alloc, ops, member)?;
    }
    Ok(())
}

#[cycle(headers)]
fn push_items(alloc: Global, ops: &mut Items<HeaderOp>, items: &[Place]) -> Made<()>
    ensures { OnOk result (ops.new ≡ ops.old ++ flat_map ops_of items.now) }
{
    for item in items {
        push_place(alloc, ops, item)?;
    }
    Ok(())
}
