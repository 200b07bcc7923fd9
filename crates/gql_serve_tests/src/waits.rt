//! Sets that wait for one another.

use crate::cells::number_answer;
use gql_base::{Error, Items, Made};
use gql_resolve::{Answer, FieldFuture, Polled, ResolverContext, ResolverSet};
use std::alloc::Global;
use std::sync::Arc;
use std::sync::atomic::{AtomicU64, Ordering};
use std::thread;

/// A set whose resolvers wait, for so many polls, until the other set was polled. Then they answer
/// 1, and else an error.
#[derive(Drop)]
pub struct Waits {
    pub mine: Arc<AtomicU64, Global>,
    pub other: Arc<AtomicU64, Global>,
    pub polls: u64,
}

/// A resolver that has so many pending polls left.
#[derive(Drop)]
pub struct Waiter {
    left: u64,
}

/// The answer that is an error.
fn error_answer(alloc: Global) -> Made<Answer<u64>> {
    let error = Error::new(alloc, "not polled")?;
    Ok(Answer {
        result: Err(error),
        added: Items::new(alloc),
        headers: Items::new(alloc),
    })
}

impl ResolverSet for Waits {
    ghost use Rattle.std.specs.Prelude.{None};
    ghost use Rattle.gql_resolve.specs.Lawful.{plain_answer};

    type Own = u64;

    type World = u64;

    type Future = Waiter;

    ghost Rules = { Unit {0} };

    ghost rules = { λ set. tt };

    ghost world = { λ set. 0 };

    ghost answer = { λ rules call world. plain_answer None };

    ghost effect = { λ rules call world. world };

    ghost is_lawful = { λ set. ⊥ };

    ghost is_paced = { λ set. ⊥ };

    ghost delay = { λ rules resolver. 0 };

    ghost told = { λ set. None };

    ghost begun = { λ set. None };

    ghost number = { λ future. future.left };

    ghost is_for = { λ future call. Unit {0} };

    fn start(
        &mut self,
        _alloc: Global,
        _call: &ResolverContext<'_, u64>,
    ) -> Made<FieldFuture<u64, Waiter>> {
        Ok(FieldFuture::new(Waiter { left: self.polls }))
    }

    fn poll(
        &mut self,
        alloc: Global,
        future: &mut Waiter,
        _call: &ResolverContext<'_, u64>,
    ) -> Made<Polled<u64>> {
        self.mine.fetch_add(1, Ordering::SeqCst);
        if self.other.load(Ordering::SeqCst) > 0 {
            return Ok(Polled::Ready(number_answer(alloc, 1)));
        }
        if future.left == 0 {
            return Ok(Polled::Ready(error_answer(alloc)?));
        }
        future.left -= 1;
        thread::yield_now();
        Ok(Polled::Pending)
    }

    fn poll_root(
        &mut self,
        alloc: Global,
        future: &mut Waiter,
        call: &ResolverContext<'_, u64>,
    ) -> Made<Polled<u64>> {
        self.poll(alloc, future, call)
    }

    fn snapshot(&self, _alloc: Global) -> Made<u64> {
        Ok(0)
    }
}
