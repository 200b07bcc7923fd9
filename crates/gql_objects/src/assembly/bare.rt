//! What is left of completed answers without their objects, and how these come back into it, with
//! their members (GraphQL, October 2021, section 6.4.3).
ghost use Rattle.std.specs.Prelude.{◌≡◌, [], false, map, replicate, IfOk, OnOk};
ghost use Rattle.gql_base.specs.Pairs.{HasDistinctNames, values_of};
ghost use Rattle.gql_place.specs.Alike.{Paired, SameItems, SameMembers, SameTree};
ghost use Rattle.gql_place.specs.Pieces.{members_in, place_in, places_in};
ghost use Rattle.gql_place.specs.declared.place.Tree.TheVariants as tree;
ghost use Rattle.gql_place.specs.declared.shape.Shape.TheVariants as shape;
ghost use Rattle.gql_objects.specs.Members.{members_with, places_behind_all};
ghost use Rattle.gql_objects.specs.Assembly.{AreApart, members_each};
ghost use Rattle.gql_complete.specs.FillShape.{all_trees, first_members, other_members, tree_with};
ghost use Rattle.gql_objects.specs.Parents.{standing_behind};
ghost use Rattle.gql_objects.specs.PlaceStore.{present};
ghost use Rattle.gql_complete.specs.FoundObjects.{Bare as BareShape};

use crate::assembly::members::members_at;
use crate::parent::Parent;
use gql_base::{Made, Pairs, Pos};
use gql_complete::{fill, item_piece};
use gql_place::{MemberPieces, Piece, Pieces, Shape, Tree};
use std::alloc::Global;
use std::collections::VecDeque;
use std::marker::Model;
use std::rc::Rc;

/// A completed answer without its objects. Contracts see it as a shape.
#[derive(Drop)]
pub struct Bare {
    left: Left,
}

/// A shape as it is, or the number of the objects that a list is made of, and whether none of them
/// may be null: most answers with many objects are such lists.
#[derive(Drop)]
enum Left {
    Shape(Shape<(), ()>),
    Objects(bool, usize),
}

/// A list of objects: where it stands, whether none of them may be null, how many they are, and
/// whether places are kept whole.
#[derive(Clone, Copy)]
struct ObjectList {
    pos: Pos,
    non_null: bool,
    count: usize,
    whole: bool,
}

impl Model for Bare {
    ghost use Rattle.gql_objects.specs.Bare.{shape_left};
    ghost use Rattle.gql_complete.specs.FoundObjects.{Bare as BareShape};
    ghost use Rattle.gql_place.specs.contracts.shape.Shape as shape_contract;
    ghost use denote.Builtin.{unit};

    ghost Value = { BareShape };

    ghost coded = { (shape_contract.the_row unit unit).coded };

    ghost view = { λ bare. shape_left bare.left };
}

impl Bare {
    /// What a shape is.
    pub fn of(shape: Shape<(), ()>) -> Bare
        ensures { result ≡ shape }
    {
        Bare {
            left: Left::Shape(shape),
        }
    }

    /// A list of as many objects.
    pub fn objects(non_null: bool, count: usize) -> Bare
        ensures { result ≡ shape.List non_null
            (replicate {A = BareShape} count (shape.Object tt tt)) }
    {
        Bare {
            left: Left::Objects(non_null, count),
        }
    }

    /// The tree of the answer, whose objects are these, each with the members that its tasks came
    /// to: they take their places from the front, one object after another, and are let go of with
    /// it.
    pub fn fill<'a, V: Drop>(
        self,
        alloc: Global,
        pos: Pos,
        whole: bool,
        parents: Vec<Rc<Parent<'a, V>>>,
        own: &mut VecDeque<Option<Piece>>,
    ) -> Made<Tree>
        ensures { AreApart whole (map standing_behind parents.entry.items)
            → IfOk result (λ made. SameTree whole made (tree_with pos self
            (members_each (map standing_behind parents.entry.items)
            (map place_in (present own.old.items))))) }
    {
        match self.left {
            Left::Shape(shape) => fill_shape(alloc, shape, pos, whole, parents, own),
            Left::Objects(non_null, count) => {
                let list = ObjectList {
                    pos,
                    non_null,
                    count,
                    whole,
                };
                fill_list(alloc, list, parents, own)
            }
        }
    }
}

/// The tree of a shape, with the members of its objects.
fn fill_shape<'a, V: Drop>(
    alloc: Global,
    shape: Shape<(), ()>,
    pos: Pos,
    whole: bool,
    parents: Vec<Rc<Parent<'a, V>>>,
    own: &mut VecDeque<Option<Piece>>,
) -> Made<Tree>
    ensures { AreApart whole (map standing_behind parents.entry.items)
        → IfOk result (λ made. SameTree whole made (tree_with pos shape
        (members_each (map standing_behind parents.entry.items)
        (map place_in (present own.old.items))))) }
{
    let mut members = all_members(alloc, parents.as_slice(), whole, own)?;
    fill(alloc, shape, pos, whole, &mut members)
}

/// The members of objects, of the places of their tasks.
fn all_members<'a, V: Drop>(
    alloc: Global,
    parents: &[Rc<Parent<'a, V>>],
    whole: bool,
    own: &mut VecDeque<Option<Piece>>,
) -> Made<VecDeque<MemberPieces>>
    ensures { AreApart whole (map standing_behind parents.entry.now) → IfOk result (λ members.
        Paired (SameMembers whole) (map members_in members.items)
        (members_each (map standing_behind parents.entry.now)
        (map place_in (present own.old.items)))) }
{
    let mut members = VecDeque::with_capacity(alloc, parents.len())?;
    for parent in parents {
        members.push_back(members_at(alloc, parent.level.as_ref(), whole, own)?)?;
    }
    Ok(members)
}

/// The tree of a list of objects.
fn fill_list<'a, V: Drop>(
    alloc: Global,
    list: ObjectList,
    parents: Vec<Rc<Parent<'a, V>>>,
    own: &mut VecDeque<Option<Piece>>,
) -> Made<Tree>
    ensures { AreApart list.whole (map standing_behind parents.entry.items)
        → IfOk result (λ made. SameTree list.whole made (tree_with list.pos
        (shape.List list.non_null (replicate {A = BareShape} list.count (shape.Object tt tt)))
        (members_each (map standing_behind parents.entry.items)
        (map place_in (present own.old.items))))) }
{
    let mut parents = VecDeque::from_vec(parents);
    let pieces = fill_objects(alloc, list, &mut parents, own)?;
    pieces.into_list(alloc, list.whole)
}

/// The places of its objects.
fn fill_objects<'a, V: Drop>(
    alloc: Global,
    list: ObjectList,
    parents: &mut VecDeque<Rc<Parent<'a, V>>>,
    own: &mut VecDeque<Option<Piece>>,
) -> Made<Pieces>
    ensures { AreApart list.whole (map standing_behind parents.old.items)
        → IfOk result (λ pieces. SameItems list.whole (places_in pieces)
        (all_trees list.pos list.non_null
        (replicate {A = BareShape} list.count (shape.Object tt tt))
        (members_each (map standing_behind parents.old.items)
        (map place_in (present own.old.items))))) }
{
    let mut pieces = Pieces::with_capacity(alloc, list.whole, list.count)?;
    for _object in 0..list.count {
        let tree = next_object(alloc, list.whole, parents, own)?;
        let piece = item_piece(alloc, list.pos, list.non_null, list.whole, tree)?;
        pieces.push(alloc, piece)?;
    }
    Ok(pieces)
}

/// What stands at the place of the next object.
fn next_object<'a, V: Drop>(
    alloc: Global,
    whole: bool,
    parents: &mut VecDeque<Rc<Parent<'a, V>>>,
    own: &mut VecDeque<Option<Piece>>,
) -> Made<Tree>
    ensures tree { AreApart whole (map standing_behind parents.old.items)
        → IfOk result (λ made. SameTree whole made (tree.Object (first_members
        (members_each (map standing_behind parents.old.items)
        (map place_in (present own.old.items)))))) }
    ensures left { OnOk result (members_each (map standing_behind parents.new.items)
        (map place_in (present own.new.items))
        ≡ other_members (members_each (map standing_behind parents.old.items)
        (map place_in (present own.old.items)))) }
    ensures apart { AreApart whole (map standing_behind parents.old.items)
        → AreApart whole (map standing_behind parents.new.items) }
{
    match parents.pop_front() {
        Some(parent) => object_of(alloc, parent, whole, own),
        None => Ok(Tree::Object(Pairs::new(alloc))),
    }
}

/// What stands at the place of an object, which is let go of.
fn object_of<'a, V: Drop>(
    alloc: Global,
    parent: Rc<Parent<'a, V>>,
    whole: bool,
    own: &mut VecDeque<Option<Piece>>,
) -> Made<Tree>
    ensures tree { (whole ≡ false → HasDistinctNames (standing_behind parent.entry).members)
        → IfOk result (λ made. SameTree whole made (tree.Object
        (members_with (standing_behind parent.entry).spot.object
        (standing_behind parent.entry).members (map place_in (present own.old.items))))) }
    ensures left { OnOk result (map place_in (present own.new.items)
        ≡ places_behind_all (values_of (standing_behind parent.entry).members)
        (map place_in (present own.old.items))) }
{
    let members = members_at(alloc, parent.level.as_ref(), whole, own);
    drop(parent);
    members?.into_object(alloc, whole)
}
