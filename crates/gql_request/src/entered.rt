use gql_base::{Copied, Made};
use std::alloc::Global;

/// Whether hooks let the work go on, or answer in its place.
#[derive(Debug, Drop)]
pub enum Entered<T> {
    Go,
    Answer(T),
}

impl<T: Copied + Drop> Copied for Entered<T> {
    fn try_clone(&self, alloc: Global) -> Made<Entered<T>> {
        match self {
            Entered::Go => Ok(Entered::Go),
            Entered::Answer(answer) => Ok(Entered::Answer(answer.try_clone(alloc)?)),
        }
    }
}
