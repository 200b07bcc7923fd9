//! What is kept of places in a row, and of the members of an object. As long as each of them has
//! its data alone, so has the whole.
ghost use Rattle.std.specs.Prelude.{◌≡◌, ◌<◌, ◌++◌, ◌∷◌, [], length, map, IfOk, OnErr, OnOk};
ghost use Rattle.std.specs.Vec.{vec_capacity};
ghost use Rattle.std.specs.List.{zip};
ghost use Rattle.gql_base.specs.Pairs.{names_of};
ghost use Rattle.gql_place.specs.Alike.{SameTree};
ghost use Rattle.gql_place.specs.Pieces.{data_place as place_of_data, members_in, place_in};
ghost use Rattle.gql_place.specs.Pieces.{places_in};
ghost use Rattle.gql_place.specs.declared.place.Tree.TheVariants as tree;

use crate::piece::{Piece, data_place};
use crate::place::{Place, Tree};
use gql_base::{Items, Made, Pairs, Value};
use std::alloc::Global;
use std::mem;

/// What is kept of places in a row.
#[derive(Debug, Drop)]
pub enum Pieces {
    Data(Vec<Value>),
    Whole(Vec<Place>),
}

/// What is kept of the members of an object.
#[derive(Debug, Drop)]
pub enum MemberPieces {
    Data(Pairs<Value>),
    Whole(Pairs<Place>),
}

impl Pieces {
    /// No place yet, with room for some, of which the whole is kept from the first on or as soon as
    /// one has more than its data.
    pub fn with_capacity(alloc: Global, whole: bool, room: usize) -> Made<Pieces>
        ensures { IfOk result (λ pieces. places_in pieces ≡ []) }
    {
        if whole {
            Ok(Pieces::Whole(Vec::with_capacity(alloc, room)?))
        } else {
            Ok(Pieces::Data(Vec::with_capacity(alloc, room)?))
        }
    }

    /// Adds a place at the end. Where memory runs out the places stay as they were.
    pub fn push(&mut self, alloc: Global, piece: Piece) -> Made<()>
        ensures ok { OnOk result (places_in self.new ≡ places_in self.old ++ place_in piece ∷ []) }
        ensures err { OnErr result (places_in self.new ≡ places_in self.old) }
    {
        match piece {
            Piece::Data(value) => self.push_data(alloc, value),
            Piece::Whole(place) => self.push_whole(alloc, place.into_inner()),
        }
    }

    fn push_data(&mut self, alloc: Global, value: Value) -> Made<()>
        ensures ok { OnOk result (places_in self.new
            ≡ places_in self.old ++ place_of_data value ∷ []) }
        ensures err { OnErr result (places_in self.new ≡ places_in self.old) }
    {
        match self {
            Pieces::Data(values) => values.push(value)?,
            Pieces::Whole(places) => places.push(data_place(alloc, value))?,
        }
        Ok(())
    }

    fn push_whole(&mut self, alloc: Global, place: Place) -> Made<()>
        ensures ok { OnOk result (places_in self.new ≡ places_in self.old ++ place ∷ []) }
        ensures err { OnErr result (places_in self.new ≡ places_in self.old) }
    {
        match self {
            Pieces::Data(values) => {
                let room = Vec::with_capacity(alloc, values.len() + 1)?;
                let values = mem::replace(values, Vec::new(alloc));
                *self = Pieces::Whole(places_before(alloc, room, values, place));
            }
            Pieces::Whole(places) => places.push(place)?,
        }
        Ok(())
    }

    /// The places, as a whole.
    pub fn into_places(self, alloc: Global) -> Made<Vec<Place>>
        ensures { IfOk result (λ places. places.items ≡ places_in self) }
    {
        match self {
            Pieces::Data(values) => places_of(alloc, values),
            Pieces::Whole(places) => Ok(places),
        }
    }

    /// What stands at the place of a list of these items.
    #[tactic(auto, using(crate::proofs::PieceLemmas::tree_of))]
    pub fn into_list(self, alloc: Global, whole: bool) -> Made<Tree>
        ensures { IfOk result (λ made. SameTree whole made (tree.List (places_in self))) }
    {
        match self {
            Pieces::Data(values) => list_of(alloc, whole, values),
            Pieces::Whole(places) => Ok(Tree::List(Items::from_vec(places))),
        }
    }

    /// These places under as many keys.
    pub fn under(self, alloc: Global, keys: &Pairs<()>) -> Made<MemberPieces>
        requires { length (places_in self) ≡ length keys.now }
        ensures { IfOk result (λ members. members_in members
            ≡ zip (names_of keys.now) (places_in self)) }
    {
        match self {
            Pieces::Data(values) => Ok(MemberPieces::Data(keys.with_values(alloc, values)?)),
            Pieces::Whole(places) => Ok(MemberPieces::Whole(keys.with_values(alloc, places)?)),
        }
    }
}

impl MemberPieces {
    /// What stands at the place of an object of these members.
    #[tactic(auto, using(crate::proofs::PieceLemmas::tree_of))]
    pub fn into_object(self, alloc: Global, whole: bool) -> Made<Tree>
        ensures { IfOk result (λ made. SameTree whole made (tree.Object (members_in self))) }
    {
        match self {
            MemberPieces::Data(values) => object_of(alloc, whole, values),
            MemberPieces::Whole(places) => Ok(Tree::Object(places)),
        }
    }
}

/// What stands where nothing does.
#[tactic(auto, using(crate::proofs::PieceLemmas::absent_same))]
pub fn absent_tree(whole: bool) -> Tree
    ensures { SameTree whole result tree.Absent }
{
    if whole {
        Tree::Absent
    } else {
        Tree::Leaf(Value::Null)
    }
}

/// A list of data.
#[tactic(auto, using(crate::proofs::PieceLemmas::data_list_same, crate::proofs::PieceLemmas::tree_of))]
fn list_of(alloc: Global, whole: bool, values: Vec<Value>) -> Made<Tree>
    ensures { IfOk result (λ made. SameTree whole made
        (tree.List (map place_of_data values.items))) }
{
    if whole {
        Ok(Tree::List(Items::from_vec(places_of(alloc, values)?)))
    } else {
        Ok(Tree::Leaf(Value::list(alloc, Items::from_vec(values))?))
    }
}

/// An object of data.
#[tactic(auto, using(crate::proofs::PieceLemmas::data_long))]
fn object_of(alloc: Global, whole: bool, values: Pairs<Value>) -> Made<Tree>
    ensures { IfOk result (λ made. SameTree whole made
        (tree.Object (map (λ m. (m.0, place_of_data m.1)) values))) }
{
    if whole {
        let (names, values) = values.into_parts();
        let places = places_of(alloc, values)?;
        Ok(Tree::Object(Pairs::from_parts(names, places)))
    } else {
        Ok(Tree::Leaf(Value::object(alloc, values)?))
    }
}

/// Places of data.
fn places_of(alloc: Global, values: Vec<Value>) -> Made<Vec<Place>>
    ensures { IfOk result (λ places. places.items ≡ map place_of_data values.items) }
{
    let mut places = Vec::with_capacity(alloc, values.len())?;
    for value in values {
        places.push(data_place(alloc, value))?;
    }
    Ok(places)
}

/// Places of data and one more after them, in a list that has room for them.
fn places_before(alloc: Global, room: Vec<Place>, values: Vec<Value>, last: Place) -> Vec<Place>
    requires empty { room.items ≡ [] }
    requires room { length values.items < vec_capacity room }
    ensures { result.items ≡ map place_of_data values.items ++ last ∷ [] }
{
    let mut places = room;
    for value in values {
        places.push_reserved(data_place(alloc, value));
    }
    places.push_reserved(last);
    places
}
