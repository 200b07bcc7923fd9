use std::alloc::AllocError;

/// Out of memory in an execution.
#[derive(Clone, Copy, PartialEq, Eq, Debug)]
pub struct NoMemory {
    /// The number of root keys of a mutation whose effect stands. It is 0 for queries and refused
    /// requests.
    pub roots: u64,
}

/// Where memory runs out before an execution, no effect stands.
impl From<AllocError> for NoMemory {
    ghost use Rattle.std.specs.Prelude.{◌≡◌};

    ghost from_gives = { λ _ made. made.roots ≡ 0 };

    fn from(_error: AllocError) -> NoMemory {
        NoMemory { roots: 0 }
    }
}
