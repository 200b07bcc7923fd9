//! A ballot as a resolver set, and turns: the set of docs/RESOLVERS.md, which its users copy.
ghost use Rattle.std.specs.Prelude.{◌≡◌, ◌∷◌, ◌++◌, [], OnOk, OnErr, Some, pos};
ghost use Rattle.gql_resolve.specs.Lawful.{plain_answer};
ghost use Rattle.gql_resolve.specs.Record.{entry_of};

use gql_base::{Items, Made, Number, Value};
use gql_resolve::{
    Answer, FieldFuture, FieldValue, Polled, RecordEntry, ResolverContext, ResolverSet, Turns,
};
use std::alloc::Global;

/// Each resolver answers the last vote. As a root of a mutation it then votes for its own number. Its answer comes after as
/// many pending polls as the delay.
#[derive(Drop)]
pub struct Ballot {
    pub last_vote: u64,
    pub delay: u64,
    pub entries: Items<RecordEntry>,
    pub begun: Items<u64>,
}

/// A resolver of this number that has so many pending polls left.
#[derive(Drop)]
pub struct Voter {
    resolver: u32,
    polls: u64,
}

impl Ballot {
    pub fn new(alloc: Global, delay: u64) -> Ballot {
        Ballot {
            last_vote: 0,
            delay,
            entries: Items::new(alloc),
            begun: Items::new(alloc),
        }
    }

    /// Adds an entry to the record.
    fn note(&mut self, alloc: Global, call: &ResolverContext<'_, u64>, ready: bool) -> Made<()>
        ensures ok { OnOk result (self.new ≡ record self.old { entries = self.old.entries ++ entry_of call.now ready ∷ [] }) }
        ensures err { OnErr result (self.new ≡ self.old) }
    {
        self.entries.push(RecordEntry::of(alloc, call, ready)?)
    }
}

impl ResolverSet for Ballot {
    ghost use Rattle.std.specs.Prelude.{ℕ, Some, pos};
    ghost use Rattle.gql_base.specs.declared.value.Value.TheVariants as value;
    ghost use Rattle.gql_resolve.specs.declared.field_value.FieldValue.TheVariants as given;
    ghost use Rattle.gql_resolve.specs.Lawful.{plain_answer};

    type Own = u64;

    type World = u64;

    type Future = Voter;

    ghost Rules = { ℕ };

    ghost rules = { λ set. set.delay };

    ghost world = { λ set. set.last_vote };

    ghost answer = { λ rules call world. plain_answer (Some (given.Value (value.Number (pos world)))) };

    ghost effect = { λ rules call world. call.resolver };

    ghost is_lawful = { λ set. Unit {0} };

    ghost is_paced = { λ set. Unit {0} };

    ghost delay = { λ rules resolver. rules };

    ghost told = { λ set. Some set.entries };

    ghost begun = { λ set. Some set.begun };

    ghost number = { λ future. future.polls };

    ghost is_for = { λ future call. future.resolver ≡ call.resolver };

    fn start(
        &mut self,
        _alloc: Global,
        call: &ResolverContext<'_, u64>,
    ) -> Made<FieldFuture<u64, Voter>> {
        self.begun.push(call.task)?;
        Ok(FieldFuture::new(Voter {
            resolver: call.resolver,
            polls: self.delay,
        }))
    }

    fn poll(
        &mut self,
        alloc: Global,
        future: &mut Voter,
        call: &ResolverContext<'_, u64>,
    ) -> Made<Polled<u64>> {
        if future.polls > 0 {
            self.note(alloc, call, false)?;
            future.polls -= 1;
            return Ok(Polled::Pending);
        }
        self.note(alloc, call, true)?;
        Ok(Polled::Ready(number_answer(alloc, self.last_vote)))
    }

    fn poll_root(
        &mut self,
        alloc: Global,
        future: &mut Voter,
        call: &ResolverContext<'_, u64>,
    ) -> Made<Polled<u64>> {
        if future.polls > 0 {
            self.note(alloc, call, false)?;
            future.polls -= 1;
            return Ok(Polled::Pending);
        }
        self.note(alloc, call, true)?;
        let before = self.last_vote;
        self.last_vote = u64::from(future.resolver);
        Ok(Polled::Ready(number_answer(alloc, before)))
    }

    fn snapshot(&self, _alloc: Global) -> Made<u64> {
        Ok(self.last_vote)
    }
}

/// The answer that is a whole number.
fn number_answer(alloc: Global, number: u64) -> Answer<u64>
    ensures { result ≡ plain_answer (Some (FieldValue.Value (Value.Number (pos number)))) }
{
    Answer {
        result: Ok(Some(FieldValue::value(Value::Number(Number::from_u64(number))))),
        added: Items::new(alloc),
        headers: Items::new(alloc),
    }
}

/// Turns that take the last of the tasks that wait.
#[derive(Drop)]
pub struct Last;

impl Turns for Last {
    ghost use Rattle.std.specs.Prelude.{Some, ◌-◌};

    ghost State = { Unit {0} };

    ghost state = { λ turns. Some tt };

    ghost choice = { λ state n. n - 1 };

    ghost after = { λ state n. state };

    fn pick(&mut self, n: usize) -> usize {
        n - 1
    }
}
