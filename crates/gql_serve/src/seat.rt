//! The seats of services.
ghost use Rattle.std.specs.Prelude.{◌≡◌};

use std::sync::ledger::{Ledger, Share};

/// A right to make calls of a service. It counts those that left an entry.
#[derive(Drop)]
pub struct Seat<L: Ledger> {
    pub(crate) number: u32,
    pub(crate) count: u64,
    pub(crate) share: Share<L>,
    pub ghost one: { share.parts ≡ 1 },
    pub ghost counted: { share.amount ≡ count },
}

impl<L: Ledger> Seat<L> {
    ghost use Rattle.gql_serve.specs.Seats.{entries_of, number_of};

    /// A seat of this number that made no call.
    pub(crate) fn of(number: u32, share: Share<L>) -> Seat<L>
        requires { (share.parts ≡ 1) × (share.amount ≡ 0) }
        ensures count { entries_of result ≡ 0 }
        ensures number { number_of result ≡ number }
    {
        Seat {
            number,
            count: 0,
            share,
        }
    }

    /// How many of its calls left an entry.
    pub fn entries(&self) -> u64
        ensures { result ≡ entries_of self.now }
    {
        self.count
    }

    /// Its share, which counts as much.
    pub(crate) fn into_share(self) -> Share<L>
        ensures parts { result.parts ≡ 1 }
        ensures amount { result.amount ≡ entries_of self }
    {
        self.share
    }
}
