//! Taking the thing of a desk in turn, and giving it back.
ghost use Rattle.std.specs.Prelude.{◌≡◌, ◌<◌, length, [], ◌∷◌, Some, true};
ghost use Rattle.gql_tickets.specs.Desks.{table_of};
ghost use Rattle.gql_tickets.specs.Journals.{IsAt};
ghost use Rattle.gql_tickets.specs.Turns.{Has, IsOneMore, IsQuiet, Leaves, passes};

use crate::desk::Desk;
use crate::journaled::Journaled;
use crate::rule::Place;
use crate::steps::{count, draw, look, pass};
use std::sync::Wait;
use std::thread;

impl<A: Journaled<E> + Drop, E> Desk<A, E> {
    /// Draws a ticket, waits for its turn, and takes the thing.
    pub fn take<T: Wait>(&self, rt: &T, place: &mut Place<A, E>)
        requires seat { place.old.table_id ≡ table_of self.now }
        requires one { length place.old.me.0.parts ≡ 1 }
        requires quiet { IsQuiet place.old.me.0 }
        requires empty { length place.old.me.1 ≡ 0 }
        requires few { place.old.me.0.drew < 4294967296 }
        ensures same { (place.new.table_id ≡ place.old.table_id) × (place.new.id ≡ place.old.id) }
        ensures has { (part : _) × (place.old.me.0.parts ≡ part ∷ [])
            × Has A.caller (IsAt A.Journaled) part place.old.me.0 place.new.me }
    {
        let ticket = draw(&self.board, place);
        for _ in rt.forever() {
            let turn = look(&self.board, place);
            if turn == ticket {
                return;
            }
            rest(ticket.saturating_sub(turn));
        }
        unreachable!()
    }

    /// Counts the entry that was added to the thing, gives it back, and passes the turn.
    pub fn leave_counted(&self, place: &mut Place<A, E>)
        requires seat { place.old.table_id ≡ table_of self.now }
        requires out { place.old.me.0.out ≡ true }
        requires one { (part : _) × (entry : _) × (place.old.me.0.parts ≡ part ∷ [])
            × IsOneMore A.caller (IsAt A.Journaled) part entry place.old.me.1 }
        ensures same { (place.new.table_id ≡ place.old.table_id) × (place.new.id ≡ place.old.id) }
        ensures told { Leaves A.caller (IsAt A.Journaled) place.old.me place.new.me }
    {
        count(&self.board, place);
        pass(&self.board, place);
    }

    /// Gives the thing back with no entry added, and passes the turn.
    pub fn leave(&self, place: &mut Place<A, E>)
        requires seat { place.old.table_id ≡ table_of self.now }
        requires out { place.old.me.0.out ≡ true }
        requires kept { (part : _) × (thing : _) × (place.old.me.0.parts ≡ part ∷ [])
            × (place.old.me.1 ≡ (0, Some thing) ∷ [])
            × IsAt A.Journaled part.origin part.seen thing }
        ensures same { (place.new.table_id ≡ place.old.table_id) × (place.new.id ≡ place.old.id) }
        ensures told { place.new.me ≡ (passes place.old.me.0, []) }
    {
        pass(&self.board, place);
    }
}

/// Lets other threads run, the longer, the more tickets stand before one's own.
fn rest(ahead: u64) {
    for _ in 0..ahead.min(64) {
        thread::yield_now();
    }
}
