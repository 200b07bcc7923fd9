ghost use Rattle.std.specs.Prelude.{◌≡◌, ◌++◌, IfOk, OnOk, map};
ghost use Rattle.gql_place.specs.Faults.{faults_of, faults_at, tree_faults, member_faults};
ghost use Rattle.gql_place.specs.Faults.{item_faults, located};
ghost use Rattle.gql_place.specs.Steps.{path_of, segment_of};

use crate::place::{Place, Tree};
use gql_base::{Copied, Error, Items, Made, Name, Pairs, PathSegment, Pos, ServerError};
use std::alloc::Global;

/// A step on the way to a place of a response. Its key is the response's own, and is copied where an
/// error is told.
#[derive(Clone, Copy, Debug)]
pub enum Step<'a> {
    Field(&'a Name),
    Index(usize),
}

/// The errors of a response: of each place the added ones, then its fault, then those under it in
/// their order, also under what is null. Each has the path of its place and the position of its
/// field (GraphQL, October 2021, section 7.1.2).
pub fn faults(alloc: Global, place: &Place) -> Made<Items<ServerError>>
    ensures { IfOk result (λ errors. errors ≡ faults_of place.now) }
{
    let mut path = Items::new(alloc);
    let mut errors = Items::new(alloc);
    push_place(alloc, &mut errors, &mut path, place)?;
    Ok(errors)
}

#[cycle(faults)]
fn push_place<'a>(
    alloc: Global,
    errors: &mut Items<ServerError>,
    path: &mut Items<Step<'a>>,
    place: &'a Place,
) -> Made<()>
    ensures found { OnOk result (errors.new ≡ errors.old ++ faults_at place.now (path_of path.old)) }
    ensures path { OnOk result (path_of path.new ≡ path_of path.old) }
{
    push_added(
        alloc,
        errors,
        path.as_slice(),
        place.pos,
        place.added.as_slice(),
    )?;
    push_tree(alloc, errors, path, place.pos, &place.tree)
}

/// An error at a path and a position.
fn error_at(alloc: Global, error: &Error, pos: Pos, path: &[Step<'_>]) -> Made<ServerError>
    ensures { IfOk result (λ made. made ≡ located pos (path_of path.now) error.now) }
{
    let mut locations = Items::new(alloc);
    locations.push(pos)?;
    Ok(ServerError {
        message: error.message.try_clone(alloc)?,
        locations,
        path: copied_path(alloc, path)?,
        extensions: error.extensions.try_clone(alloc)?,
    })
}

/// The path of these steps.
fn copied_path(alloc: Global, path: &[Step<'_>]) -> Made<Items<PathSegment>>
    ensures { IfOk result (λ copy. copy ≡ path_of path.now) }
{
    let mut copy = Items::with_capacity(alloc, path.len())?;
    for step in path {
        copy.push(segment_of(alloc, *step)?)?;
    }
    Ok(copy)
}

fn segment_of(alloc: Global, step: Step<'_>) -> Made<PathSegment>
    ensures { IfOk result (λ segment. segment ≡ segment_of step.entry) }
{
    match step {
        Step::Field(key) => Ok(PathSegment::Field(key.text().try_clone(alloc)?)),
        Step::Index(index) => Ok(PathSegment::Index(index)),
    }
}

fn push_added(
    alloc: Global,
    errors: &mut Items<ServerError>,
    path: &[Step<'_>],
    pos: Pos,
    added: &[Error],
) -> Made<()>
    ensures { OnOk result (errors.new
        ≡ errors.old ++ map (located pos (path_of path.now)) added.now) }
{
    for error in added {
        errors.push(error_at(alloc, error, pos, path)?)?;
    }
    Ok(())
}

#[cycle(faults)]
fn push_tree<'a>(
    alloc: Global,
    errors: &mut Items<ServerError>,
    path: &mut Items<Step<'a>>,
    pos: Pos,
    tree: &'a Tree,
) -> Made<()>
    ensures found { OnOk result (errors.new
        ≡ errors.old ++ tree_faults tree.now pos (path_of path.old)) }
    ensures path { OnOk result (path_of path.new ≡ path_of path.old) }
{
    match tree {
        Tree::Absent | Tree::Leaf(_) => Ok(()),
        Tree::Fault(error) => errors.push(error_at(alloc, error, pos, path.as_slice())?),
        Tree::Object(members) => push_members(alloc, errors, path, members),
        Tree::List(items) => push_items(alloc, errors, path, items.as_slice()),
    }
}

#[cycle(faults)]
fn push_members<'a>(
    alloc: Global,
    errors: &mut Items<ServerError>,
    path: &mut Items<Step<'a>>,
    members: &'a Pairs<Place>,
) -> Made<()>
    ensures found { OnOk result (errors.new
        ≡ errors.old ++ member_faults members.now (path_of path.old)) }
    ensures path { OnOk result (path_of path.new ≡ path_of path.old) }
{
    for index in 0..members.len() {
        let (key, member) = members.pair_at(index);
        path.push(Step::Field(key))?;
        push_place(alloc, errors, path, member)?;
        path.pop();
    }
    Ok(())
}

#[cycle(faults)]
fn push_items<'a>(
    alloc: Global,
    errors: &mut Items<ServerError>,
    path: &mut Items<Step<'a>>,
    items: &'a [Place],
) -> Made<()>
    ensures found { OnOk result (errors.new
        ≡ errors.old ++ item_faults items.now (path_of path.old)) }
    ensures path { OnOk result (path_of path.new ≡ path_of path.old) }
{
    for (index, item) in items.iter().enumerate() {
        path.push(Step::Index(index))?;
        push_place(alloc, errors, path, item)?;
        path.pop();
    }
    Ok(())
}
