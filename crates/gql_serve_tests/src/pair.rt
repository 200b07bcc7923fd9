//! A service over a cell with its two seats.
ghost use Rattle.std.specs.Prelude.{◌≡◌, Some};

use crate::cells::Cells;
use gql_base::Made;
use gql_serve::{Roll, Seat, Served};
use std::alloc::{AllocError, Global};
use std::sync::ledger::{Blank, Ledger};

/// A service, and its seats.
#[derive(Drop)]
pub struct Pair<L: Roll<Cells>> {
    pub served: Served<Cells, L>,
    pub one: Seat<L>,
    pub two: Seat<L>,
}

/// The last two seats.
fn two_of<L: Ledger>(mut seats: Vec<Seat<L>>) -> Option<(Seat<L>, Seat<L>)> {
    let two = seats.pop()?;
    let one = seats.pop()?;
    Some((one, two))
}

/// A service over this set, with two seats that made no call.
pub fn opened<L: Roll<Cells>>(alloc: Global, blank: Blank, set: Cells) -> Made<Pair<L>>
    requires name { blank.name ≡ L.name }
    requires parts { blank.parts ≡ L.parts }
    requires all { L.all ≡ L.parts }
    requires begins { L.begins ≡ Some set }
    requires two { blank.parts ≡ 2 }
{
    let (served, seats) = Served::<Cells, L>::new(alloc, blank, set, 2)?;
    match two_of(seats) {
        Some((one, two)) => Ok(Pair { served, one, two }),
        None => Err(AllocError),
    }
}
