//! The end of desks.
ghost use Rattle.std.specs.Prelude.{◌≡◌, ◌<◌, length, vec_len};
ghost use Rattle.gql_tickets.specs.Desks.{AreAllTold, ArePlacedAt, AreSeatsOf, made_at};
ghost use Rattle.gql_tickets.specs.Desks.{origin_of, parts_at};
ghost use Rattle.gql_tickets.specs.Turns.{AllBelow, AreAll, IsQuiet};

use crate::desk::Desk;
use crate::desk_seat::DeskSeat;
use crate::journaled::Journaled;
use crate::rule::{Board, Place};
use crate::steps::join;

impl<A: Journaled<E> + Drop, E> Desk<A, E> {
    /// The thing, once all seats have come back. Its journal has of each seat the entries that the
    /// seat saw as its own, in the seat's order, and no others.
    pub fn close(self, seats: Vec<DeskSeat<A, E>>) -> A
        requires seats { AreSeatsOf self seats.items }
        requires all { vec_len seats ≡ made_at self }
        ensures from { A.is_from (origin_of self) result }
        ensures callers { AllBelow A.caller (made_at self) (A.journal result) }
        ensures told { AreAllTold A.caller (A.journal result) seats.items }
    {
        let Desk { board, .. } = self;
        let all = gathered(&board, seats);
        let mut closed = board.close_with(all);
        let slot = closed.take(0);
        closed.free();
        match slot {
            Some(thing) => thing,
            None => unreachable!(),
        }
    }
}

/// One seat with the numbers of all.
fn gathered<A: Journaled<E> + Drop, E>(
    board: &Board<A, E>,
    seats: Vec<DeskSeat<A, E>>,
) -> Place<A, E>
    requires words { board.now.shared.table_id.words ≡ 3 }
    requires some { 0 < vec_len seats }
    requires seats { ArePlacedAt board.now.shared.table_id board.now.shared.key.first.value
        seats.items }
    ensures table { result.table_id ≡ board.now.shared.table_id }
    ensures quiet { IsQuiet result.me.0 }
    ensures many { length result.me.0.parts ≡ vec_len seats }
    ensures all { (log : _) → AreAll A.caller log result.me.0.parts
        → AreAll A.caller log (parts_at seats.items) }
{
    let mut seats = seats;
    let mut all = match seats.pop() {
        Some(seat) => seat.into_place(),
        None => unreachable!(),
    };
    while let Some(seat) = seats.pop() {
        join(board, &mut all, seat.into_place());
    }
    all
}
