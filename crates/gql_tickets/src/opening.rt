//! The making of desks, with their seats.
ghost use Rattle.std.specs.Prelude.{◌≡◌, ◌<◌, ◌≤◌, IfOk, vec_len, [], ◌∷◌};
ghost use Rattle.gql_tickets.specs.Desks.{AreNew, ArePlacedAt, AreSeatsOf, made_at, origin_of};
ghost use Rattle.gql_tickets.specs.Journals.{IsAt};
ghost use Rattle.gql_tickets.specs.Turns.{maker};

use crate::desk::Desk;
use crate::desk_seat::DeskSeat;
use crate::journaled::Journaled;
use crate::rule::{Board, Key, Place};
use crate::steps::split;
use atomic_table::Table;
use std::alloc::{AllocError, Global};
use std::snapshot::Snapshot;

impl<A: Journaled<E> + Drop, E> Desk<A, E> {
    /// A desk with a thing whose journal is empty, and its seats, numbered from 0 on.
    pub fn new(
        alloc: Global,
        thing: A,
        seats: u32,
    ) -> Result<(Desk<A, E>, Vec<DeskSeat<A, E>>), AllocError>
        requires empty { A.journal thing ≡ [] }
        requires from { A.is_from thing thing }
        requires some { 0 < seats }
        requires few { seats ≤ 65536 }
        ensures made { IfOk result (λ r. made_at r.0 ≡ seats) }
        ensures origin { IfOk result (λ r. origin_of r.0 ≡ thing) }
        ensures many { IfOk result (λ r. vec_len r.1 ≡ seats) }
        ensures seats { IfOk result (λ r. AreSeatsOf r.0 r.1.items) }
        ensures new { IfOk result (λ r. AreNew 0 r.1.items) }
    {
        let key = Key {
            first: Snapshot::of(&thing),
            seats,
        };
        let (board, place) = laid(alloc, thing, &key)?;
        let dealt = deal(alloc, &board, place, seats)?;
        Ok((Desk { made: seats, board }, dealt))
    }
}

/// A table with the thing at home, and the seat that has all numbers.
fn laid<A: Journaled<E> + Drop, E>(
    alloc: Global,
    thing: A,
    key: &Key<A>,
) -> Result<(Board<A, E>, Place<A, E>), AllocError>
    requires at { IsAt A.Journaled key.now.first.value [] thing }
    requires few { key.now.seats ≤ 65536 }
    ensures board { IfOk result (λ r. (r.0.shared.table_id.words ≡ 3)
        × (r.0.shared.table_id.slots ≡ 1) × (r.0.shared.key ≡ key.now)) }
    ensures place { IfOk result (λ r. (r.1.table_id ≡ r.0.shared.table_id)
        × (r.1.me ≡ (maker key.now.first.value key.now.seats, []))) }
{
    let mut slots = Vec::with_capacity(alloc, 1)?;
    slots.push(Some(thing))?;
    match Table::new(alloc, &[0, 0, 0], slots, key) {
        Ok(both) => Ok(both),
        Err(_) => Err(AllocError),
    }
}

/// A seat for each number.
fn deal<A: Journaled<E> + Drop, E>(
    alloc: Global,
    board: &Board<A, E>,
    mut place: Place<A, E>,
    seats: u32,
) -> Result<Vec<DeskSeat<A, E>>, AllocError>
    requires words { board.now.shared.table_id.words ≡ 3 }
    requires table { place.table_id ≡ board.now.shared.table_id }
    requires place { place.me ≡ (maker board.now.shared.key.first.value seats, []) }
    ensures many { IfOk result (λ r. vec_len r ≡ seats) }
    ensures placed { IfOk result (λ r.
        ArePlacedAt board.now.shared.table_id board.now.shared.key.first.value r.items) }
    ensures new { IfOk result (λ r. AreNew 0 r.items) }
{
    let mut dealt = Vec::with_capacity(alloc, seats as usize)?;
    for number in 0..seats {
        let one = split(board, &mut place);
        dealt.push(DeskSeat {
            number,
            calls: 0,
            place: one,
        })?;
    }
    Ok(dealt)
}
