//! Closes of a service over a cell.
ghost use Rattle.std.specs.Prelude.{◌≡◌};

use crate::cells::Cells;
use crate::pair::Pair;
use gql_base::Made;
use gql_serve::{Roll, Seat, Served};
use std::alloc::Global;
use std::sync::ledger::Ledger;

/// How many entries the journal has after a close with these seats, if that is taken.
pub fn entries_after<L: Roll<Cells>>(served: Served<Cells, L>, seats: Vec<Seat<L>>) -> Option<usize>
    requires { L.all ≡ L.parts }
{
    let book = served.close(seats).ok()?;
    Some(book.entries().len())
}

/// Two seats, for a close.
fn both<L: Ledger>(alloc: Global, one: Seat<L>, two: Seat<L>) -> Made<Vec<Seat<L>>> {
    let mut seats = Vec::new(alloc);
    seats.push(one)?;
    seats.push(two)?;
    Ok(seats)
}

/// How many entries the journal has after a close with both seats, if that is taken.
pub fn entries_of<L: Roll<Cells>>(alloc: Global, pair: Pair<L>) -> Made<Option<usize>>
    requires { L.all ≡ L.parts }
{
    let Pair { served, one, two } = pair;
    let seats = both(alloc, one, two)?;
    Ok(entries_after(served, seats))
}
