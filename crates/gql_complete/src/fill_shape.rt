//! The trees of completed answers, with the members of their objects (GraphQL, October 2021,
//! section 6.4.3).
ghost use Rattle.std.specs.Prelude.{false, ◌≡◌, map, IfOk, OnOk};
ghost use Rattle.gql_place.specs.Alike.{Same, SameItems, SameTree};
ghost use Rattle.gql_place.specs.Filled.{item_of};
ghost use Rattle.gql_place.specs.Pieces.{members_in, place_in, places_in};
ghost use Rattle.gql_place.specs.declared.place.Tree.TheVariants as tree;
ghost use Rattle.gql_complete.specs.FillShape.{all_trees, first_members, left_after, left_after_all};
ghost use Rattle.gql_complete.specs.FillShape.{other_members, tree_with};

use gql_base::{Items, Made, Pairs, Pos};
use gql_place::{MemberPieces, Piece, Pieces, Place, Shape, Tree, absent_tree};
use std::alloc::Global;
use std::collections::VecDeque;

/// The tree of a completed answer, whose objects take these members from the front, one after
/// another. Where places aren't kept whole, it is data as long as it tells nothing else.
#[cycle(fill)]
pub fn fill(
    alloc: Global,
    shape: Shape<(), ()>,
    pos: Pos,
    whole: bool,
    members: &mut VecDeque<MemberPieces>,
) -> Made<Tree>
    ensures tree { IfOk result (λ made. SameTree whole made
        (tree_with pos shape (map members_in members.old.items))) }
    ensures left { OnOk result (map members_in members.new.items
        ≡ left_after pos shape (map members_in members.old.items)) }
{
    match shape {
        Shape::Absent => Ok(absent_tree(whole)),
        Shape::Leaf(value) => Ok(Tree::Leaf(value)),
        Shape::Fault(error) => Ok(Tree::Fault(error)),
        Shape::Object(_, _) => next_object(alloc, whole, members),
        Shape::List(non_null, items) => {
            let items = fill_items(alloc, items, non_null, pos, whole, members)?;
            items.into_list(alloc, whole)
        }
    }
}

/// The places of the items of a list.
#[tactic(auto, using(crate::proofs::FillLemmas::filled_none, crate::proofs::FillLemmas::filled_all))]
#[cycle(fill)]
fn fill_items(
    alloc: Global,
    items: Items<Shape<(), ()>>,
    non_null: bool,
    pos: Pos,
    whole: bool,
    members: &mut VecDeque<MemberPieces>,
) -> Made<Pieces>
    ensures places { IfOk result (λ pieces. SameItems whole (places_in pieces)
        (all_trees pos non_null items (map members_in members.old.items))) }
    ensures left { OnOk result (map members_in members.new.items
        ≡ left_after_all pos items (map members_in members.old.items)) }
{
    let mut pieces = Pieces::with_capacity(alloc, whole, items.len())?;
    for item in items.into_vec() {
        let tree = fill(alloc, item, pos, whole, members)?;
        pieces.push(alloc, item_piece(alloc, pos, non_null, whole, tree)?)?;
    }
    Ok(pieces)
}

/// What is kept of the place of an item.
pub fn item_piece(alloc: Global, pos: Pos, non_null: bool, whole: bool, tree: Tree) -> Made<Piece>
    ensures { IfOk result (λ piece. Same whole (place_in piece) (item_of pos non_null tree)) }
{
    if whole {
        Piece::new(alloc, true, item_place(alloc, pos, non_null, tree))
    } else {
        item_data(alloc, pos, non_null, tree)
    }
}

/// The same where the whole isn't wanted: of a leaf its value is kept, and no place is made.
#[tactic(auto, using(gql_place::proofs::PieceLemmas::leaf_same))]
fn item_data(alloc: Global, pos: Pos, non_null: bool, tree: Tree) -> Made<Piece>
    ensures { IfOk result (λ piece. Same false (place_in piece) (item_of pos non_null tree)) }
{
    match tree {
        Tree::Leaf(value) => Ok(Piece::Data(value)),
        tree => Piece::new(alloc, false, item_place(alloc, pos, non_null, tree)),
    }
}

/// The place of an item: errors and header operations stand at the list's own place.
fn item_place(alloc: Global, pos: Pos, non_null: bool, tree: Tree) -> Place
    ensures { result ≡ item_of pos non_null tree }
{
    Place {
        pos,
        non_null,
        added: Items::new(alloc),
        headers: Items::new(alloc),
        tree,
    }
}

/// What stands at the place of the next object.
fn next_object(alloc: Global, whole: bool, members: &mut VecDeque<MemberPieces>) -> Made<Tree>
    ensures first { IfOk result (λ made. SameTree whole made
        (tree.Object (first_members (map members_in members.old.items)))) }
    ensures left { map members_in members.new.items
        ≡ other_members (map members_in members.old.items) }
{
    match members.pop_front() {
        Some(first) => first.into_object(alloc, whole),
        None => Ok(Tree::Object(Pairs::new(alloc))),
    }
}
