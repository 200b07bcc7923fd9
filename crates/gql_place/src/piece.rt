ghost use Rattle.std.specs.Prelude.{◌≡◌, IfOk};
ghost use Rattle.gql_place.specs.Alike.{Same};
ghost use Rattle.gql_place.specs.Pieces.{data_place, place_in};

use crate::place::{Place, Tree};
use gql_base::{Boxed, Items, Made, Pos, Value};
use std::alloc::Global;

/// What is kept of a place: its data alone, where it tells a response nothing else, or the whole of
/// it.
#[derive(Debug, Drop)]
pub enum Piece {
    Data(Value),
    Whole(Boxed<Place>),
}

impl Piece {
    /// What is kept of a place, which is all of it where `whole` is true.
    #[tactic(auto, using(crate::proofs::PieceLemmas::same_of, crate::proofs::PieceLemmas::leaf_same))]
    pub fn new(alloc: Global, whole: bool, place: Place) -> Made<Piece>
        ensures { IfOk result (λ piece. Same whole (place_in piece) place) }
    {
        if whole || !place.added.is_empty() || !place.headers.is_empty() {
            return Ok(Piece::Whole(Boxed::new(alloc, place)?));
        }
        let Place {
            pos,
            non_null,
            added,
            headers,
            tree,
        } = place;
        match tree {
            Tree::Leaf(value) => Ok(Piece::Data(value)),
            tree => {
                let place = Place {
                    pos,
                    non_null,
                    added,
                    headers,
                    tree,
                };
                Ok(Piece::Whole(Boxed::new(alloc, place)?))
            }
        }
    }

    /// A place that tells what is kept: the place itself where the whole of it is.
    pub fn into_place(self, alloc: Global) -> Place
        ensures { result ≡ place_in self }
    {
        match self {
            Piece::Data(value) => data_place(alloc, value),
            Piece::Whole(place) => place.into_inner(),
        }
    }
}

/// A place of which data is all that it tells.
pub(crate) fn data_place(alloc: Global, value: Value) -> Place
    ensures { result ≡ data_place value }
{
    Place {
        pos: Pos { line: 0, column: 0 },
        non_null: false,
        added: Items::new(alloc),
        headers: Items::new(alloc),
        tree: Tree::Leaf(value),
    }
}
