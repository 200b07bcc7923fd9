//! Requests of several callers over schemas: works on threads of their own, and a set of resolvers
//! that callers share, with a journal of what was executed over it.
#![tactic(auto)]

mod book;
mod entry;
mod executing;
pub mod laws;
mod locked;
mod roll;
mod room;
mod seat;
mod served;
mod shared;
mod threads;

pub use book::Book;
pub use entry::{Entry, Outcome};
pub use roll::Roll;
pub use seat::Seat;
pub use served::{CloseFault, Served};
pub use threads::{Work, execute_batch_threads};
