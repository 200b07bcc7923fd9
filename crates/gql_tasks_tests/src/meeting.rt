//! Two resolvers that need each other's turns, and turns that alternate, for tests.

ghost use Rattle.std.specs.Prelude.{◌≡◌, ◌∷◌, ◌++◌, [], OnOk, OnErr};
ghost use Rattle.gql_resolve.specs.Record.{entry_of};

use gql_base::{Error, Items, Made, Number, Value};
use gql_resolve::{
    Answer, FieldFuture, FieldValue, Polled, RecordEntry, ResolverContext, ResolverSet, Turns,
};
use std::alloc::Global;

/// Resolver 0 answers only once resolver 1 was polled, and else an error after 100 polls.
#[derive(Drop)]
pub struct Meeting {
    pub other_polled: bool,
    pub root_polled: bool,
    pub entries: Items<RecordEntry>,
}

#[derive(Drop)]
pub struct Awaited {
    polls: u64,
}

impl Meeting {
    pub fn new(alloc: Global) -> Meeting {
        Meeting {
            other_polled: false,
            root_polled: false,
            entries: Items::new(alloc),
        }
    }

    fn note(&mut self, alloc: Global, call: &ResolverContext<'_, u32>, ready: bool) -> Made<()>
        ensures ok { OnOk result (self.new
            ≡ record self.old { entries = self.old.entries ++ entry_of call.now ready ∷ [] }) }
        ensures err { OnErr result (self.new ≡ self.old) }
    {
        self.entries.push(RecordEntry::of(alloc, call, ready)?)
    }
}

impl ResolverSet for Meeting {
    ghost use Rattle.std.specs.Prelude.{ℕ, Some, None};
    ghost use Rattle.gql_resolve.specs.Lawful.{plain_answer};

    type Own = u32;

    type World = u64;

    type Future = Awaited;

    ghost Rules = { ℕ };

    ghost rules = { λ set. 0 };

    ghost world = { λ set. 0 };

    ghost answer = { λ rules call world. plain_answer None };

    ghost effect = { λ rules call world. world };

    ghost is_lawful = { λ set. ⊥ };

    ghost is_paced = { λ set. ⊥ };

    ghost delay = { λ rules resolver. 0 };

    ghost told = { λ set. Some set.entries };

    ghost begun = { λ set. None };

    ghost number = { λ future. future.polls };

    ghost is_for = { λ future call. Unit {0} };

    fn start(
        &mut self,
        _alloc: Global,
        _call: &ResolverContext<'_, u32>,
    ) -> Made<FieldFuture<u32, Awaited>> {
        Ok(FieldFuture::new(Awaited { polls: 100 }))
    }

    fn poll(
        &mut self,
        alloc: Global,
        future: &mut Awaited,
        call: &ResolverContext<'_, u32>,
    ) -> Made<Polled<u32>> {
        if call.resolver == 0 && !self.other_polled && future.polls > 0 {
            self.note(alloc, call, false)?;
            future.polls -= 1;
            return Ok(Polled::Pending);
        }
        let answer = answer_at(alloc, call.resolver, self.other_polled)?;
        self.note(alloc, call, true)?;
        self.other_polled = self.other_polled || call.resolver == 1;
        Ok(Polled::Ready(answer))
    }

    fn poll_root(
        &mut self,
        alloc: Global,
        future: &mut Awaited,
        call: &ResolverContext<'_, u32>,
    ) -> Made<Polled<u32>> {
        self.root_polled = true;
        self.poll(alloc, future, call)
    }

    fn snapshot(&self, _alloc: Global) -> Made<u64> {
        Ok(0)
    }
}

/// The answer of a resolver: its number, or an error where resolver 0 waited in vain.
fn answer_at(alloc: Global, resolver: u32, other_polled: bool) -> Made<Answer<u32>> {
    let result = if resolver == 0 && !other_polled {
        Err(Error::new(alloc, "nobody came")?)
    } else {
        Ok(Some(FieldValue::value(Value::Number(Number::from_u64(u64::from(resolver))))))
    };
    Ok(Answer {
        result,
        added: Items::new(alloc),
        headers: Items::new(alloc),
    })
}

/// Turns that take the first task and the second in turn.
#[derive(Drop)]
pub struct Alternate {
    pub second: bool,
}

impl Turns for Alternate {
    ghost use Rattle.std.specs.Prelude.{Bool, None};

    ghost State = { Bool };

    ghost state = { λ turns. None };

    ghost choice = { λ state n. 0 };

    ghost after = { λ state n. state };

    fn pick(&mut self, n: usize) -> usize {
        let place = if self.second && n > 1 { 1 } else { 0 };
        self.second = !self.second;
        place
    }
}
