//! The names of services.
use std::marker::Brand;
use std::sync::ledger::Ledger;

/// The name of a service over a set of this type. Its ledger counts the entries that the calls of
/// its seats left.
pub trait Roll<R>: Ledger {
    ghost use Rattle.std.specs.Prelude.{ℕ, Option};

    /// The number of its seats.
    ghost all: { ℕ };

    /// The set with which it begins.
    ghost begins: { Option R };
}

impl<R> Roll<R> for Brand {
    ghost use Rattle.std.specs.Prelude.{None};

    ghost all = { 0 };

    ghost begins = { None };
}
