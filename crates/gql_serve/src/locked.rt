//! What lies under the lock of a service.
ghost use Rattle.std.specs.Prelude.{◌≡◌, ◌+◌, ◌⊎◌, IfOk, OnErr, OnOk, length};
ghost use Rattle.gql_serve.specs.Seats.{entries_of, number_of};
ghost use Rattle.gql_serve.specs.Served.{Answered, BeginsWith};

use crate::book::Book;
use crate::roll::Roll;
use crate::seat::Seat;
use gql_base::{Copied, NoMemory};
use gql_exec::{DynamicRequest, Schema};
use gql_request::Response;
use gql_resolve::{ResolverSet, Turns};
use std::alloc::Global;
use std::sync::ledger::Book as Tally;

/// A book, with the count of what its seats counted: all entries.
#[derive(Drop)]
pub(crate) struct Locked<R: ResolverSet + Drop, L: Roll<R>> {
    pub(crate) book: Book<R>,
    pub(crate) tally: Tally<L>,
    pub ghost tallied: { length book.entries.items ≡ tally.total },
    pub ghost begun: { ∥ BeginsWith R.ResolverSet L.begins book.first.value ∥₁ },
}

impl<R: ResolverSet + Drop, L: Roll<R>> Locked<R, L> {
    /// Executes a request for a seat.
    pub(crate) fn serve<P: Turns>(
        &mut self,
        alloc: Global,
        schema: &Schema,
        seat: &mut Seat<L>,
        request: &DynamicRequest<R::Own>,
        turns: &mut P,
    ) -> Result<Response, NoMemory>
    where
        R::Own: Copied,
        ensures answered { IfOk result (λ response. ∥ Answered R.ResolverSet L.begins schema.now
            request.now response ∥₁) }
        ensures ok { OnOk result (entries_of seat.new ≡ entries_of seat.old + 1) }
        ensures err { OnErr result ((entries_of seat.new ≡ entries_of seat.old + 1)
            ⊎ (entries_of seat.new ≡ entries_of seat.old)) }
        ensures number { number_of seat.new ≡ number_of seat.old }
    {
        let Locked { book, tally } = self;
        let before = book.len();
        let answer = book.serve(alloc, schema, seat.number, request, turns);
        if book.len() > before {
            let Seat { count, share, .. } = seat;
            tally.add(share, 1);
            tally.audit(share);
            *count += 1;
        }
        answer
    }
}
