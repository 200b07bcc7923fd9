//! The rule of tickets and turns.
use crate::journaled::Journaled;
use crate::view::View;
use atomic_table::{Seat, Table, TableRule};
use std::alloc::Global;
use std::marker::PhantomData;
use std::snapshot::Snapshot;

/// What a table is made for: the thing as it is at first, and the number of seats.
#[derive(Drop)]
pub struct Key<A> {
    pub first: Snapshot<A>,
    pub seats: u32,
}

/// The rule. The words are the next ticket, the ticket whose turn it is, and the number of entries;
/// the slot has the thing, where no seat has taken it.
pub struct InTurn<A, E> {
    of: PhantomData<(A, E)>,
}

impl<A: Journaled<E> + Drop, E> TableRule<Option<A>, View<A, E>, Key<A>> for InTurn<A, E> {
    ghost use Rattle.gql_tickets.specs.Journals.{IsAt};
    ghost use Rattle.gql_tickets.specs.Turns.{Kept, maker};

    ghost holds = { λ key. Kept A.caller (IsAt A.Journaled) key.first.value key.seats };

    ghost first = { λ key. maker key.first.value key.seats };
}

/// The words and the slot.
pub type Board<A, E> = Table<Option<A>, View<A, E>, Key<A>, InTurn<A, E>, Global>;

/// The place of a seat, by which it makes its steps.
pub type Place<A, E> = Seat<Option<A>, View<A, E>>;
