//! Things that several callers use one at a time, in the order of the tickets that they draw. The
//! words of tickets and turns are atomic, and no lock is held.
#![tactic(auto)]

mod closing;
mod cut;
mod desk;
mod desk_seat;
mod journaled;
mod opening;
mod plays;
mod rule;
mod shared;
mod steps;
mod taking;
mod view;

pub use desk::Desk;
pub use desk_seat::DeskSeat;
pub use journaled::Journaled;
pub use rule::{Board, InTurn, Key, Place};
pub use view::{Part, View};
