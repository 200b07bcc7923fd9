//! The members of an object, of the places of its fields (GraphQL, October 2021, section 6.3).
ghost use Rattle.std.specs.Prelude.{◌≡◌, [], ◌∷◌, false, map, IfOk, MatchOption, OnOk};
ghost use Rattle.gql_base.specs.Pairs.{HasDistinctNames};
ghost use Rattle.gql_place.specs.Alike.{Same, SameItems, SameMembers};
ghost use Rattle.gql_place.specs.Pieces.{members_in, place_in, places_in};
ghost use Rattle.gql_objects.specs.Members.{absent_place, first_place, members_with, other_places};
ghost use Rattle.gql_objects.specs.Members.{place_of, places_behind, places_behind_all};
ghost use Rattle.gql_objects.specs.Members.{places_with, typename_place};
ghost use Rattle.gql_collect.specs.Groups.{united};
ghost use Rattle.gql_collect.specs.Levels.{asked_behind, members_of};
ghost use Rattle.gql_objects.specs.PlaceStore.{present};

use crate::assembly::merge_places::members_under;
use gql_base::{Boxed, Items, Made, Pos, Text, Value};
use gql_collect::{Asks, Level, Node};
use gql_place::{MemberPieces, Piece, Pieces, Place, Tree};
use std::alloc::Global;
use std::collections::VecDeque;
use std::rc::Rc;

/// The members of an object: its fields under their keys, where those that ask an answer take the
/// places that are there from the front, one after another, and places of one key are joined.
pub fn members_at(
    alloc: Global,
    level: &Level<'_>,
    whole: bool,
    places: &mut VecDeque<Option<Piece>>,
) -> Made<MemberPieces>
    ensures members { (whole ≡ false → HasDistinctNames (members_of level.now))
        → IfOk result (λ members. SameMembers whole (members_in members)
        (members_with level.now.object (members_of level.now)
        (map place_in (present places.old.items)))) }
    ensures left { OnOk result (map place_in (present places.new.items)
        ≡ places_behind_all (map asked_behind level.now.nodes.items)
        (map place_in (present places.old.items))) }
{
    let own = places_of(
        alloc,
        level.object.as_str(),
        level.nodes.as_slice(),
        whole,
        places,
    )?;
    members_under(alloc, &level.keys, own)
}

/// The places of an object's fields.
fn places_of(
    alloc: Global,
    object: &str,
    nodes: &[Rc<Node<'_>>],
    whole: bool,
    places: &mut VecDeque<Option<Piece>>,
) -> Made<Pieces>
    ensures own { IfOk result (λ own. SameItems whole (places_in own)
        (places_with object.now (map asked_behind nodes.now)
        (map place_in (present places.old.items)))) }
    ensures left { OnOk result (map place_in (present places.new.items)
        ≡ places_behind_all (map asked_behind nodes.now)
        (map place_in (present places.old.items))) }
{
    let mut own = Pieces::with_capacity(alloc, whole, nodes.len())?;
    for node in nodes {
        let piece = piece_at(alloc, object, node.as_ref(), whole, places)?;
        own.push(alloc, piece)?;
    }
    Ok(own)
}

/// What is kept of the place of a field of an object.
fn piece_at(
    alloc: Global,
    object: &str,
    node: &Node<'_>,
    whole: bool,
    places: &mut VecDeque<Option<Piece>>,
) -> Made<Piece>
    ensures piece { IfOk result (λ piece. Same whole (place_in piece) (place_of object.now
        (united node.now.group).pos node.now.asks (map place_in (present places.old.items)))) }
    ensures left { OnOk result (map place_in (present places.new.items)
        ≡ places_behind node.now.asks (map place_in (present places.old.items))) }
{
    let pos = node.group.first.pos;
    match &node.asks {
        Asks::Typename => Piece::new(alloc, whole, place_name(alloc, pos, object)?),
        Asks::Nothing => Piece::new(alloc, whole, place_nothing(alloc, pos)),
        Asks::Call {
            resolver: _,
            ty: _,
            arguments: _,
        } => next_piece(alloc, pos, places),
    }
}

/// The place of the name of an object.
fn place_name(alloc: Global, pos: Pos, object: &str) -> Made<Place>
    ensures { IfOk result (λ place. place ≡ typename_place pos object.now) }
{
    let name = Text::new(alloc, object)?;
    Ok(Place {
        pos,
        non_null: true,
        added: Items::new(alloc),
        headers: Items::new(alloc),
        tree: Tree::Leaf(Value::String(name)),
    })
}

/// The place of a field that asks nothing.
fn place_nothing(alloc: Global, pos: Pos) -> Place
    ensures { result ≡ absent_place pos }
{
    Place {
        pos,
        non_null: false,
        added: Items::new(alloc),
        headers: Items::new(alloc),
        tree: Tree::Absent,
    }
}

/// The next place.
fn next_piece(alloc: Global, pos: Pos, places: &mut VecDeque<Option<Piece>>) -> Made<Piece>
    ensures first { IfOk result (λ piece. place_in piece
        ≡ first_place pos (map place_in (present places.old.items))) }
    ensures left { map place_in (present places.new.items)
        ≡ other_places (map place_in (present places.old.items)) }
{
    match next_present(places) {
        Some(piece) => Ok(piece),
        None => Ok(Piece::Whole(Boxed::new(alloc, place_nothing(alloc, pos))?)),
    }
}

/// Takes the next place that is there off, or answers none where there is none.
#[tactic(auto, using(crate::proofs::GatheredLemmas::present_open, crate::proofs::GatheredLemmas::present_there, crate::proofs::GatheredLemmas::present_none))]
fn next_present(places: &mut VecDeque<Option<Piece>>) -> Option<Piece>
    ensures { MatchOption result
        ((present places.old.items ≡ []) × (present places.new.items ≡ []))
        (λ place. present places.old.items ≡ place ∷ present places.new.items) }
{
    'open: while let Some(next) = places.pop_front() {
        if let Some(place) = next {
            return Some(place);
        }
    }
    None
}
