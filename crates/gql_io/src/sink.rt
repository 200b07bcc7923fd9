ghost use Rattle.std.specs.Prelude.{◌≡◌, ℕ, ◌<◌, ◌≤◌, List, length, take, Option, IfOk, OnErr};
ghost use Rattle.std.specs.Prelude.{IsErrOf};
ghost use Rattle.std.specs.Io.KnownBytes.{Keeps, Appends};
ghost use Rattle.gql_io.specs.Counts.{HasRisen};

use thiserror::Error;

/// Why a write was refused.
#[derive(Debug, Drop, Error)]
pub enum SinkFault {
    /// The sink failed. Which way is its own affair.
    #[error("a write failed")]
    Failed,
    /// Memory was wanting.
    #[error("out of memory")]
    NoMemory,
}

/// What bytes are written to. Contracts see the bytes that it holds, where the sink tells them, as
/// memory does, and the number of its faults, which never falls.
pub trait Sink {
    /// The bytes that are held, where they are told.
    ghost held: { Self → Option (List ℕ) };

    /// How often a write failed.
    ghost faults: { Self → ℕ };

    /// Takes the front of a piece, and answers how many bytes it took: at least one, unless the
    /// piece is empty. An error leaves what is held.
    fn write(&mut self, bytes: &[u8]) -> Result<usize, SinkFault>
        ensures within { IfOk result (λ count. count ≤ length bytes.now) }
        ensures some { IfOk result (λ count. 0 < length bytes.now → 0 < count) }
        ensures faults_grow { faults self.old ≤ faults self.new }
        ensures appended { IfOk result
            (λ count. Appends (held self.old) (held self.new) (take count bytes.now)) }

        // A refusal has a cause, and leaves what is held.
        ensures cause { IsErrOf result SinkFault.Failed → HasRisen (faults self.old) (faults self.new) }
        ensures none_held { OnErr result (Keeps (held self.old) (held self.new)) };
}
