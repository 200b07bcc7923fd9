use gql_base::{Copied, Made};
use std::alloc::{AllocError, Global};

/// Out of memory in a batch.
#[derive(Clone, Copy, PartialEq, Eq, Debug)]
pub struct BatchNoMemory {
    /// The number of requests that were executed whole, from the first one on.
    pub done: u64,
    /// Of the next request, the number of root keys of a mutation whose effect stands.
    pub roots: u64,
}

/// Where memory runs out before a batch, nothing is done.
impl From<AllocError> for BatchNoMemory {
    ghost use Rattle.std.specs.Prelude.{◌≡◌};

    ghost from_gives = { λ _ made. (made.done ≡ 0) × (made.roots ≡ 0) };

    fn from(_error: AllocError) -> BatchNoMemory {
        BatchNoMemory { done: 0, roots: 0 }
    }
}

impl Copied for BatchNoMemory {
    fn try_clone(&self, _alloc: Global) -> Made<BatchNoMemory> {
        Ok(*self)
    }
}
