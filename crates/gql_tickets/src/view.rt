//! What a seat knows. No value of these types is made.
use std::collections::LinkedList;

/// A number that a view stands for: how the thing was at first, and how much of its journal the
/// seat of this number has seen.
pub struct Part<O, E> {
    pub origin: O,
    pub number: u32,
    pub seen: LinkedList<E>,
}

/// The numbers that a seat stands for, how many tickets they drew, the ticket that it holds where
/// it waits, whether it has taken the thing, and whether it counted an entry since.
pub struct View<O, E> {
    pub parts: LinkedList<Part<O, E>>,
    pub drew: u64,
    pub waits: bool,
    pub ticket: u64,
    pub out: bool,
    pub counted: bool,
}
