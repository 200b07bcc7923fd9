//! How the numbers of seats are split and joined.
use crate::view::View;
use atomic_table::{Join, Split};

/// The first number goes to a new seat.
pub(crate) struct Cut;

impl<O, E> Split<View<O, E>> for Cut {
    ghost use Rattle.gql_tickets.specs.Turns.{left_of, right_of};

    ghost left = { left_of };

    ghost right = { right_of };
}

/// All numbers of both.
pub(crate) struct Glue;

impl<O, E> Join<View<O, E>> for Glue {
    ghost use Rattle.gql_tickets.specs.Turns.{both_of, spent_one};

    ghost both = { both_of };

    ghost spent = { spent_one };
}
