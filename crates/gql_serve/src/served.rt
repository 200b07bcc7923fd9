//! Services that several callers share: a book under a lock, and a seat for each caller.
ghost use Rattle.std.specs.Prelude.{◌≡◌, ◌≢◌, ◌+◌, ◌<◌, ◌^◌, ◌⊎◌, Some, IfErr, IfOk, OnErr, OnOk};
ghost use Rattle.std.specs.Prelude.{length, min, vec_len};
ghost use Rattle.gql_serve.specs.Books.{first_set, journal_of};
ghost use Rattle.gql_serve.specs.Seats.{counted, entries_of, number_of};
ghost use Rattle.gql_serve.specs.Served.{Answered, BeginsWith};

use crate::book::Book;
use crate::locked::Locked;
use crate::roll::Roll;
use crate::seat::Seat;
use gql_base::{Copied, Made, NoMemory};
use gql_exec::{DynamicRequest, Schema};
use gql_request::Response;
use gql_resolve::{ResolverSet, Turns};
use std::alloc::Global;
use std::sync::ledger::{Blank, Ledger, Share};
use std::sync::{Mutex, Wait};

/// A book under a lock, for seats on many threads.
#[derive(Drop)]
pub struct Served<R: ResolverSet + Drop, L: Roll<R>> {
    made: u32,
    locked: Mutex<Locked<R, L>>,
    pub ghost all: { made ≡ L.all },
    pub ghost some: { 0 < made },
}

/// A service that was to be closed with more or fewer seats than were made, and these seats.
#[derive(Drop)]
pub struct CloseFault<R: ResolverSet + Drop, L: Roll<R>> {
    pub made: u32,
    pub given: u32,
    pub served: Served<R, L>,
    pub seats: Vec<Seat<L>>,
}

impl<R: ResolverSet + Drop, L: Roll<R>> Served<R, L> {
    /// A service over a lawful set, and its seats, which made no call.
    pub fn new(
        alloc: Global,
        blank: Blank,
        resolvers: R,
        seats: u32,
    ) -> Made<(Served<R, L>, Vec<Seat<L>>)>
        requires lawful { R.is_lawful resolvers }
        requires begins { L.begins ≡ Some resolvers }
        requires name { blank.name ≡ L.name }
        requires parts { blank.parts ≡ L.parts }
        requires all { L.all ≡ L.parts }
        requires seats { blank.parts ≡ seats }
        requires some { 0 < seats }
        ensures many { IfOk result (λ r. vec_len r.1 ≡ seats) }
        ensures none { IfOk result (λ r. counted r.1.items ≡ 0) }
    {
        let book = Book::new(alloc, resolvers)?;
        let (tally, share) = blank.open::<L>();
        let dealt = deal(alloc, share, seats)?;
        let locked = Mutex::new(Locked { book, tally });
        Ok((
            Served {
                made: seats,
                locked,
            },
            dealt,
        ))
    }

    /// Executes a request for a seat. It may wait for the lock. A response is the one in its place
    /// of a legal journal, and the seat counts one more entry.
    pub fn serve<P: Turns, T: Wait>(
        &self,
        rt: &T,
        alloc: Global,
        schema: &Schema,
        seat: &mut Seat<L>,
        request: &DynamicRequest<R::Own>,
        turns: &mut P,
    ) -> Result<Response, NoMemory>
    where
        R::Own: Copied,
        ensures answered { IfOk result (λ response. ∥ Answered R.ResolverSet L.begins schema.now
            request.now response ∥₁) }
        ensures ok { OnOk result (entries_of seat.new ≡ entries_of seat.old + 1) }
        ensures err { OnErr result ((entries_of seat.new ≡ entries_of seat.old + 1)
            ⊎ (entries_of seat.new ≡ entries_of seat.old)) }
        ensures number { number_of seat.new ≡ number_of seat.old }
    {
        self.locked
            .lock(rt)
            .serve(alloc, schema, seat, request, turns)
    }

    /// The book, once all seats have come back: it has as many entries as they counted together.
    /// With more or fewer seats than were made, service and seats are handed back.
    pub fn close(self, seats: Vec<Seat<L>>) -> Result<Book<R>, CloseFault<R, L>>
        requires all { L.all ≡ L.parts }
        ensures many { IfOk result (λ book. vec_len seats ≡ L.all) }
        ensures entries { IfOk result (λ book.
            length (journal_of book).entries ≡ counted seats.items) }
        ensures begun { IfOk result (λ book.
            ∥ BeginsWith R.ResolverSet L.begins (first_set book) ∥₁) }
        ensures err { IfErr result (λ fault. (fault.made ≡ L.all) × (vec_len seats ≢ L.all)
            × (fault.given ≡ min (vec_len seats) 4294967295) × (fault.served ≡ self)
            × (fault.seats ≡ seats)) }
    {
        let made = self.made;
        if seats.len() != made as usize {
            let given = seats.len().min(u32::MAX as usize) as u32;
            return Err(CloseFault {
                made,
                given,
                served: self,
                seats,
            });
        }
        let Served { locked, .. } = self;
        let Locked { book, mut tally } = locked.into_inner();
        let mut all = gathered(seats);
        tally.audit(&mut all);
        Ok(book)
    }
}

/// So many seats, of a share with as many parts.
#[tactic(auto, using(crate::proofs::SeatLemmas::counted_snoc))]
fn deal<L: Ledger>(alloc: Global, mut share: Share<L>, seats: u32) -> Made<Vec<Seat<L>>>
    requires { (share.parts ≡ seats) × (share.amount ≡ 0) }
    ensures many { IfOk result (λ r. vec_len r ≡ seats) }
    ensures none { IfOk result (λ r. counted r.items ≡ 0) }
{
    let mut dealt = Vec::with_capacity(alloc, seats as usize)?;
    for number in 0..seats {
        let one = share.split_off(1, 0);
        dealt.push(Seat::of(number, one))?;
    }
    Ok(dealt)
}

/// One share of all that seats counted.
#[tactic(auto, using(crate::proofs::SeatLemmas::counted_snoc))]
fn gathered<L: Ledger>(seats: Vec<Seat<L>>) -> Share<L>
    requires { 0 < vec_len seats }
    ensures parts { result.parts ≡ vec_len seats }
    ensures amount { result.amount ≡ counted seats.items }
{
    let mut seats = seats;
    let mut all = match seats.pop() {
        Some(seat) => seat.into_share(),
        None => unreachable!(),
    };
    while let Some(seat) = seats.pop() {
        all.merge(seat.into_share());
    }
    all
}
