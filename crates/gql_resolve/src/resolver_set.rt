ghost use Rattle.std.specs.Prelude.{◌≡◌, IfOk};
ghost use Rattle.gql_resolve.specs.Call.{Call, call_of};
ghost use Rattle.gql_resolve.specs.Lawful.{PromisesStart, PromisesPoll, StartsLawfully};
ghost use Rattle.gql_resolve.specs.Lawful.{PollsLawfully, PollsRootLawfully};
ghost use Rattle.gql_resolve.specs.Paced.{StartsPaced, PollsPaced};
ghost use Rattle.gql_resolve.specs.Record.{with_more, entries_of_start, entries_of_poll};
ghost use Rattle.gql_resolve.specs.Record.{tasks_of_start};

use crate::answer::Polled;
use crate::field_future::FieldFuture;
use crate::resolver_context::ResolverContext;
use gql_base::Made;
use std::alloc::Global;

/// The resolvers of a schema, by their numbers. A resolver is started for a task, and where it
/// gives a future, that is polled until it is ready.
pub trait ResolverSet {
    ghost use Rattle.std.specs.Prelude.{ℕ, List, Option};
    ghost use Rattle.gql_resolve.specs.declared.answer.Answer.{Answer};
    ghost use Rattle.gql_resolve.specs.declared.record_entry.RecordEntry.{RecordEntry};

    /// The values that the set hands to itself: a parent that only its resolvers understand.
    type Own: Drop;

    /// What mutations change.
    type World: Drop;

    /// A resolver that has begun.
    type Future: Drop;

    /// The set's rules: plain data that no call changes.
    ghost Rules: { Type 0 };

    ghost rules: { Self → Rules };

    ghost world: { Self → Self.World };

    /// What a lawful set answers to a call in a world.
    ghost answer: { Rules → Call Self.Own → Self.World → Answer Self.Own };

    /// The world that a lawful set leaves after a call, as a root of a mutation, in a world.
    ghost effect: { Rules → Call Self.Own → Self.World → Self.World };

    /// That the set answers by these two, and changes its world by nothing else.
    ghost is_lawful: { Self → Type 0 };

    /// That the set's futures take as many polls as their resolvers' delays.
    ghost is_paced: { Self → Type 0 };

    /// The delay of a resolver by its number.
    ghost delay: { Rules → ℕ → ℕ };

    /// The record of the set, where it tells one.
    ghost told: { Self → Option (List RecordEntry) };

    /// The tasks that the set began, where it tells them.
    ghost begun: { Self → Option (List ℕ) };

    /// The number of a future, which each pending poll lowers.
    ghost number: { Self.Future → ℕ };

    /// That a future is for a call.
    ghost is_for: { Self.Future → Call Self.Own → Type 0 };

    /// Begins a resolver.
    fn start(
        &mut self,
        alloc: Global,
        call: &ResolverContext<'_, Self::Own>,
    ) -> Made<FieldFuture<Self::Own, Self::Future>>
        ensures promise { IfOk result (PromisesStart is_for (call_of call.now)) }
        ensures rules { rules self.new ≡ rules self.old }
        ensures lawful { is_lawful self.old → is_lawful self.new
            × StartsLawfully (answer (rules self.old)) (effect (rules self.old)) (call_of call.now)
            (world self.old) (world self.new) result }
        ensures paced { is_paced self.old → is_paced self.new
            × IfOk result (StartsPaced number (delay (rules self.old) call.now.resolver)) }
        ensures told { told self.new ≡ with_more (told self.old) (entries_of_start call.now result) }
        ensures begun { begun self.new ≡ with_more (begun self.old) (tasks_of_start call.now result) };

    /// Asks a future for its answer. The call is the one that it is for.
    fn poll(
        &mut self,
        alloc: Global,
        future: &mut Self::Future,
        call: &ResolverContext<'_, Self::Own>,
    ) -> Made<Polled<Self::Own>>
        requires { is_for future.old (call_of call.now) }
        ensures promise { IfOk result (PromisesPoll is_for number
            (call_of call.now) future.old future.new) }
        ensures rules { rules self.new ≡ rules self.old }
        ensures lawful { is_lawful self.old → is_lawful self.new
            × PollsLawfully (answer (rules self.old)) (call_of call.now) (world self.old)
            (world self.new) result }
        ensures paced { is_paced self.old → is_paced self.new
            × IfOk result (PollsPaced number future.old future.new) }
        ensures told { told self.new ≡ with_more (told self.old) (entries_of_poll call.now result) }
        ensures begun { begun self.new ≡ begun self.old };

    /// Asks a future for its answer, as a root of a mutation: the answer comes with the effect on
    /// the world.
    fn poll_root(
        &mut self,
        alloc: Global,
        future: &mut Self::Future,
        call: &ResolverContext<'_, Self::Own>,
    ) -> Made<Polled<Self::Own>>
        requires { is_for future.old (call_of call.now) }
        ensures promise { IfOk result (PromisesPoll is_for number
            (call_of call.now) future.old future.new) }
        ensures rules { rules self.new ≡ rules self.old }
        ensures lawful { is_lawful self.old → is_lawful self.new
            × PollsRootLawfully (answer (rules self.old)) (effect (rules self.old))
            (call_of call.now) (world self.old) (world self.new) result }
        ensures paced { is_paced self.old → is_paced self.new
            × IfOk result (PollsPaced number future.old future.new) }
        ensures told { told self.new ≡ with_more (told self.old) (entries_of_poll call.now result) }
        ensures begun { begun self.new ≡ begun self.old };

    /// A copy of the world.
    fn snapshot(&self, alloc: Global) -> Made<Self::World>
        ensures { is_lawful self.now → IfOk result (λ copy. copy ≡ world self.now) };
}
