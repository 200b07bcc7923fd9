//! The steps of a seat.
ghost use Rattle.std.specs.Prelude.{◌≡◌, ◌<◌, ◌+◌, ◌++◌, true, false, [], ◌∷◌, Some};
ghost use Rattle.gql_tickets.specs.Journals.{IsAt};
ghost use Rattle.gql_tickets.specs.Turns.{Counts, Draws, IsOneMore, IsQuiet, Looks, Passes};
ghost use Rattle.gql_tickets.specs.Turns.{both_of, left_of, right_of};

use crate::cut::{Cut, Glue};
use crate::journaled::Journaled;
use crate::plays::{Count, Draw, Look, Pass};
use crate::rule::{Board, Place};

/// Draws a ticket.
pub(crate) fn draw<A: Journaled<E> + Drop, E>(board: &Board<A, E>, place: &mut Place<A, E>) -> u64
    requires seat { place.old.table_id ≡ board.now.shared.table_id }
    requires words { board.now.shared.table_id.words ≡ 3 }
    requires one { (part : _) × (place.old.me.0.parts ≡ part ∷ []) }
    requires free { place.old.me.0.waits ≡ false }
    requires few { place.old.me.0.drew < 4294967296 }
    ensures same { (place.new.table_id ≡ place.old.table_id) × (place.new.id ≡ place.old.id) }
    ensures told { Draws place.old.me result place.new.me }
{
    board.shared.fetch_add::<Draw>(place, 0, 1)
}

/// Looks whose turn it is, and takes the thing where it is the seat's own.
pub(crate) fn look<A: Journaled<E> + Drop, E>(board: &Board<A, E>, place: &mut Place<A, E>) -> u64
    requires seat { place.old.table_id ≡ board.now.shared.table_id }
    requires words { board.now.shared.table_id.words ≡ 3 }
    requires one { (part : _) × (place.old.me.0.parts ≡ part ∷ []) }
    requires waits { place.old.me.0.waits ≡ true }
    requires empty { place.old.me.0.out ≡ false }
    ensures same { (place.new.table_id ≡ place.old.table_id) × (place.new.id ≡ place.old.id) }
    ensures told { Looks A.caller (IsAt A.Journaled) place.old.me result place.new.me }
{
    board.shared.load::<Look>(place, 1)
}

/// Counts the entry that was added to the thing.
pub(crate) fn count<A: Journaled<E> + Drop, E>(board: &Board<A, E>, place: &mut Place<A, E>) -> u64
    requires seat { place.old.table_id ≡ board.now.shared.table_id }
    requires words { board.now.shared.table_id.words ≡ 3 }
    requires out { place.old.me.0.out ≡ true }
    requires one { (part : _) × (entry : _) × (place.old.me.0.parts ≡ part ∷ [])
        × IsOneMore A.caller (IsAt A.Journaled) part entry place.old.me.1 }
    ensures same { (place.new.table_id ≡ place.old.table_id) × (place.new.id ≡ place.old.id) }
    ensures told { Counts A.caller (IsAt A.Journaled) place.old.me result place.new.me }
{
    board.shared.fetch_add::<Count>(place, 2, 1)
}

/// Gives the thing back, and passes the turn.
pub(crate) fn pass<A: Journaled<E> + Drop, E>(board: &Board<A, E>, place: &mut Place<A, E>) -> u64
    requires seat { place.old.table_id ≡ board.now.shared.table_id }
    requires words { board.now.shared.table_id.words ≡ 3 }
    requires out { place.old.me.0.out ≡ true }
    requires kept { (part : _) × (thing : _) × (place.old.me.0.parts ≡ part ∷ [])
        × (place.old.me.1 ≡ (0, Some thing) ∷ []) × IsAt A.Journaled part.origin part.seen thing }
    ensures same { (place.new.table_id ≡ place.old.table_id) × (place.new.id ≡ place.old.id) }
    ensures told { Passes place.old.me result place.new.me }
{
    board.shared.fetch_add::<Pass>(place, 1, 1)
}

/// A seat for the first number of one that drew no ticket.
pub(crate) fn split<A: Journaled<E> + Drop, E>(
    board: &Board<A, E>,
    place: &mut Place<A, E>,
) -> Place<A, E>
    requires seat { place.old.table_id ≡ board.now.shared.table_id }
    requires words { board.now.shared.table_id.words ≡ 3 }
    requires quiet { IsQuiet place.old.me.0 }
    requires none { place.old.me.0.drew ≡ 0 }
    ensures same { (place.new.table_id ≡ place.old.table_id) × (place.new.id ≡ place.old.id) }
    ensures left { place.new.me ≡ (left_of place.old.me.0, place.old.me.1) }
    ensures right { (result.table_id ≡ place.old.table_id)
        × (result.me ≡ (right_of place.old.me.0, [])) }
{
    board.shared.split_seat::<Cut>(place)
}

/// Takes in the numbers of another seat.
pub(crate) fn join<A: Journaled<E> + Drop, E>(
    board: &Board<A, E>,
    place: &mut Place<A, E>,
    other: Place<A, E>,
)
    requires seat { (place.old.table_id ≡ board.now.shared.table_id)
        × (other.table_id ≡ board.now.shared.table_id) }
    requires words { board.now.shared.table_id.words ≡ 3 }
    requires quiet { IsQuiet place.old.me.0 × IsQuiet other.me.0 × (other.me.1 ≡ []) }
    ensures same { (place.new.table_id ≡ place.old.table_id) × (place.new.id ≡ place.old.id) }
    ensures both { place.new.me ≡ (both_of place.old.me.0 other.me.0, place.old.me.1) }
{
    board.shared.join_seat::<Glue>(place, other);
}
