//! What each step tells.
use crate::journaled::Journaled;
use crate::view::View;
use atomic_table::Play;

/// A ticket is drawn.
pub(crate) struct Draw;

impl<A: Journaled<E> + Drop, E> Play<Option<A>, View<A, E>> for Draw {
    ghost use Rattle.gql_tickets.specs.Turns.{Draws};

    ghost then = { λ step m found n. Draws m found n };
}

/// It is looked whose turn it is, and where it is one's own, the thing is taken.
pub(crate) struct Look;

impl<A: Journaled<E> + Drop, E> Play<Option<A>, View<A, E>> for Look {
    ghost use Rattle.gql_tickets.specs.Journals.{IsAt};
    ghost use Rattle.gql_tickets.specs.Turns.{Looks};

    ghost then = { λ step m found n. Looks A.caller (IsAt A.Journaled) m found n };
}

/// An entry is counted.
pub(crate) struct Count;

impl<A: Journaled<E> + Drop, E> Play<Option<A>, View<A, E>> for Count {
    ghost use Rattle.gql_tickets.specs.Journals.{IsAt};
    ghost use Rattle.gql_tickets.specs.Turns.{Counts};

    ghost then = { λ step m found n. Counts A.caller (IsAt A.Journaled) m found n };
}

/// The thing is given back, and the turn is passed.
pub(crate) struct Pass;

impl<A: Journaled<E> + Drop, E> Play<Option<A>, View<A, E>> for Pass {
    ghost use Rattle.gql_tickets.specs.Turns.{Passes};

    ghost then = { λ step m found n. Passes m found n };
}
