//! The seats of desks.
ghost use Rattle.std.specs.Prelude.{◌≡◌, false, length};
ghost use Rattle.gql_tickets.specs.Turns.{number_in};

use crate::rule::Place;

/// A right to draw tickets at a desk, under a number.
#[derive(Drop)]
pub struct DeskSeat<A, E> {
    pub number: u32,
    pub calls: u64,
    pub place: Place<A, E>,
    pub ghost one: { length place.me.0.parts ≡ 1 },
    pub ghost number_is: { number_in place.me.0.parts ≡ number },
    pub ghost waits: { place.me.0.waits ≡ false },
    pub ghost out: { place.me.0.out ≡ false },
    pub ghost empty: { length place.me.1 ≡ 0 },
    pub ghost drew: { place.me.0.drew ≡ calls },
}

impl<A, E> DeskSeat<A, E> {
    ghost use Rattle.gql_tickets.specs.Desks.{calls_of, number_of};

    /// How many calls it has made: each drew a ticket.
    pub fn calls(&self) -> u64
        ensures { result ≡ calls_of self.now }
    {
        self.calls
    }

    /// Its number, by which entries name their caller.
    pub fn number(&self) -> u32
        ensures { result ≡ number_of self.now }
    {
        self.number
    }

    pub(crate) fn into_place(self) -> Place<A, E>
        ensures { result ≡ self.place }
    {
        self.place
    }
}
