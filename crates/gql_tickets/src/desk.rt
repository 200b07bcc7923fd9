//! Desks.
ghost use Rattle.std.specs.Prelude.{◌≡◌, ◌<◌};

use crate::journaled::Journaled;
use crate::rule::Board;

/// A thing that is used by one seat at a time, in the order of tickets.
#[derive(Drop)]
pub struct Desk<A: Journaled<E> + Drop, E> {
    pub made: u32,
    pub board: Board<A, E>,
    pub ghost words: { board.shared.table_id.words ≡ 3 },
    pub ghost slots: { board.shared.table_id.slots ≡ 1 },
    pub ghost seats: { board.shared.key.seats ≡ made },
    pub ghost some: { 0 < made },
}

impl<A: Journaled<E> + Drop, E> Desk<A, E> {
    ghost use Rattle.gql_tickets.specs.Desks.{made_at};

    /// How many seats were made for it.
    pub fn seats(&self) -> u32
        ensures { result ≡ made_at self.now }
    {
        self.made
    }
}
