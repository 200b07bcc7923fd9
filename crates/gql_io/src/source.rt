ghost use Rattle.std.specs.Prelude.{◌≡◌, ◌↔◌, ℕ, ◌<◌, ◌≤◌, List, [], length, take, Option, IfSome};
ghost use Rattle.std.specs.Prelude.{IfOk, OnErr};
ghost use Rattle.std.specs.Io.KnownBytes.{Keeps, Consumes};
ghost use Rattle.gql_io.specs.Counts.{HasRisen, RisesBy};

use thiserror::Error;

/// A read failed. Which way is the source's own affair.
#[derive(Debug, Drop, Error)]
#[error("a read failed")]
pub struct Failed;

/// What bytes are read from. Contracts see the bytes that are left, where the source tells them, as
/// memory does, and two numbers that never fall: of the bytes that it gave, and of its faults.
pub trait Source {
    /// The bytes that are left, where they are told.
    ghost left: { Self → Option (List ℕ) };

    /// How many bytes were given.
    ghost given: { Self → ℕ };

    /// How often a read failed.
    ghost faults: { Self → ℕ };

    /// Fills the front of a buffer, and answers how many bytes it gave. No byte for a buffer that
    /// has room means the end. An error takes nothing.
    fn read(&mut self, buf: &mut [u8]) -> Result<usize, Failed>
        ensures within { IfOk result (λ count. count ≤ length buf.new) }
        ensures given_grows { given self.old ≤ given self.new }
        ensures faults_grow { faults self.old ≤ faults self.new }

        // A refusal has a cause, and takes nothing.
        ensures cause { OnErr result (HasRisen (faults self.old) (faults self.new)) }
        ensures none_given { OnErr result (given self.new ≡ given self.old) }
        ensures none_taken { OnErr result (Keeps (left self.old) (left self.new)) }

        // Any other read counts what it gave, and takes it off what is left.
        ensures counted { IfOk result (RisesBy (given self.old) (given self.new)) }
        ensures taken { IfOk result
            (λ count. Consumes (left self.old) (left self.new) (take count buf.new)) }
        ensures end { IfOk result (λ count. 0 < length buf.new
            → IfSome (left self.old) (λ bytes. (count ≡ 0) ↔ (bytes ≡ []))) };
}
