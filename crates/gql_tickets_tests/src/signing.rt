//! A line that a seat writes in its turn.
ghost use Rattle.std.specs.Prelude.{◌≡◌, ◌<◌, ◌+◌, [], ◌∷◌, Some, length};
ghost use Rattle.gql_tickets.specs.Desks.{IsSeatOf, calls_of, number_of, origin_of, table_of};
ghost use Rattle.gql_tickets.specs.Turns.{AreFrom, IsQuiet, number_in};
ghost use Rattle.gql_tickets_tests.specs.Signing.{Wrote};

use crate::guestbook::{Guestbook, Line};
use gql_tickets::{Desk, DeskSeat, Place};
use std::sync::Wait;

/// Writes a line in the turn of a seat, and tells whether there was room for it.
pub(crate) fn sign<T: Wait>(
    rt: &T,
    desk: &Desk<Guestbook, Line>,
    seat: &mut DeskSeat<Guestbook, Line>,
    word: u32,
) -> bool
    requires seat { IsSeatOf desk.now seat.old }
    requires few { calls_of seat.old < 4294967296 }
    ensures seat { IsSeatOf desk.now seat.new }
    ensures calls { calls_of seat.new ≡ calls_of seat.old + 1 }
    ensures number { number_of seat.new ≡ number_of seat.old }
{
    let DeskSeat {
        number,
        calls,
        place,
        ..
    } = seat;
    let wrote = sign_at(rt, desk, place, *number, word);
    *calls += 1;
    wrote
}

/// The same by the place of a seat that stands for one number.
fn sign_at<T: Wait>(
    rt: &T,
    desk: &Desk<Guestbook, Line>,
    place: &mut Place<Guestbook, Line>,
    guest: u32,
    word: u32,
) -> bool
    requires seat { place.old.table_id ≡ table_of desk.now }
    requires from { AreFrom (origin_of desk.now) place.old.me.0.parts }
    requires one { length place.old.me.0.parts ≡ 1 }
    requires guest { guest ≡ number_in place.old.me.0.parts }
    requires quiet { IsQuiet place.old.me.0 }
    requires empty { length place.old.me.1 ≡ 0 }
    requires few { place.old.me.0.drew < 4294967296 }
    ensures same { (place.new.table_id ≡ place.old.table_id) × (place.new.id ≡ place.old.id) }
    ensures from { AreFrom (origin_of desk.now) place.new.me.0.parts }
    ensures one { length place.new.me.0.parts ≡ 1 }
    ensures number { number_in place.new.me.0.parts ≡ number_in place.old.me.0.parts }
    ensures quiet { IsQuiet place.new.me.0 }
    ensures empty { length place.new.me.1 ≡ 0 }
    ensures drew { place.new.me.0.drew ≡ place.old.me.0.drew + 1 }
{
    desk.take(rt, place);
    if write_there(desk, place, guest, word) {
        desk.leave_counted(place);
        true
    } else {
        desk.leave(place);
        false
    }
}

/// Writes a line into the book that a seat has taken.
fn write_there(
    desk: &Desk<Guestbook, Line>,
    place: &mut Place<Guestbook, Line>,
    guest: u32,
    word: u32,
) -> bool
    requires seat { place.old.table_id ≡ table_of desk.now }
    requires has { (book : _) × (place.old.me.1 ≡ (0, Some book) ∷ []) }
    ensures same { (place.new.table_id ≡ place.old.table_id) × (place.new.id ≡ place.old.id)
        × (place.new.me.0 ≡ place.old.me.0) }
    ensures told { (old : _) × (new : _) × (place.old.me.1 ≡ (0, Some old) ∷ [])
        × (place.new.me.1 ≡ (0, Some new) ∷ []) × Wrote guest old new result }
{
    match place.slot_mut(&desk.board.shared, 0) {
        Some(book) => write(book, guest, word),
        None => unreachable!(),
    }
}

/// Writes a line into a book.
fn write(book: &mut Guestbook, guest: u32, word: u32) -> bool
    ensures { Wrote guest book.old book.new result }
{
    match book.lines.push(Line { guest, word }) {
        Ok(()) => true,
        Err(_) => false,
    }
}
