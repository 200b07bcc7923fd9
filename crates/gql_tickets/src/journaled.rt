//! Things with a journal.

/// A thing that keeps a journal of entries, each of which names its caller by a number.
pub trait Journaled<E> {
    ghost use Rattle.std.specs.Prelude.{ℕ, List};

    /// The caller of an entry.
    ghost caller: { E → ℕ };

    /// Its entries, in order.
    ghost journal: { Self → List E };

    /// The second came of the first.
    ghost is_from: { Self → Self → Type 0 };
}
