//! A guest book that seats sign in turn.
use gql_tickets::Journaled;

/// A line of the book: who wrote it, and what.
#[derive(Drop)]
pub(crate) struct Line {
    pub(crate) guest: u32,
    pub(crate) word: u32,
}

/// The lines, in order.
#[derive(Drop)]
pub(crate) struct Guestbook {
    pub(crate) lines: Vec<Line>,
}

impl Journaled<Line> for Guestbook {
    ghost caller = { λ line. line.guest };

    ghost journal = { λ book. book.lines.items };

    ghost is_from = { λ first now. Unit {0} };
}
