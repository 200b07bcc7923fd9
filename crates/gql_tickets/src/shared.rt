//! What can be moved to threads, and shared between them.
use crate::desk::Desk;
use crate::desk_seat::DeskSeat;
use crate::journaled::Journaled;

fn moved<T: Send>() {}

fn both<T: Send + Sync>() {}

fn of_seat<A: Send, E>() {
    moved::<DeskSeat<A, E>>();
}

fn of_desk<A: Journaled<E> + Drop + Send, E>() {
    both::<Desk<A, E>>();
}
