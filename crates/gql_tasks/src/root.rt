//! The phase of a root key of a mutation: its task is answered alone, and all under it goes on
//! from there.
ghost use Rattle.std.specs.Prelude.{◌≡◌, ◌<◌, Ok, false, length, OnOk, IfErr};
ghost use Rattle.gql_tasks.specs.Arena.{events_left};
ghost use Rattle.gql_tasks.specs.Parts.{root_parts, at};
ghost use Rattle.gql_tasks.specs.Progress.{IsSound};
ghost use Rattle.gql_tasks.specs.Root.{RootReached, RootAnswered, RootEnded};

use crate::arena::Arena;
use crate::plan::Plan;
use crate::rounds::Rounds;
use crate::run::Run;
use crate::scheduler::{Reached, advance};
use gql_base::NoMemory;
use gql_resolve::{ResolverSet, Turns};
use std::alloc::Global;
use std::sync::ledger::Ledger;

/// Answers the one task that waits, as a root of a mutation: its effect on the world comes with its
/// answer. Want of memory tells the root where its effect stands.
pub fn answer_root<R: ResolverSet, L: Plan<R::Own>, H: Rounds, P: Turns, S: Ledger>(
    alloc: Global,
    plan: &mut L,
    arena: &mut Arena<R::Future>,
    run: &mut Run<'_, R, H, P, S>,
) -> Result<(), NoMemory>
    requires sound { IsSound (root_parts R.ResolverSet L.Plan H.Rounds P.Turns)
        (at plan.old arena.old run.old) }
    requires alone { length arena.old.waiting ≡ 1 }
    ensures answered { OnOk result (RootAnswered (root_parts R.ResolverSet L.Plan H.Rounds P.Turns)
        (at plan.old arena.old run.old) (at plan.new arena.new run.new)) }
    ensures ended { IfErr result (RootEnded (root_parts R.ResolverSet L.Plan H.Rounds P.Turns)
        (at plan.old arena.old run.old) (at plan.new arena.new run.new)) }
{
    // Its start and its answer are the events that are to come (`events_left`).
    'events: loop {
        if reach_root(alloc, plan, arena, run)? {
            return Ok(());
        }
    }
}

/// Turns until the root has begun or has its answer. True where it has.
fn reach_root<R: ResolverSet, L: Plan<R::Own>, H: Rounds, P: Turns, S: Ledger>(
    alloc: Global,
    plan: &mut L,
    arena: &mut Arena<R::Future>,
    run: &mut Run<'_, R, H, P, S>,
) -> Result<bool, NoMemory>
    requires sound { IsSound (root_parts R.ResolverSet L.Plan H.Rounds P.Turns)
        (at plan.old arena.old run.old) }
    requires alone { length arena.old.waiting ≡ 1 }
    ensures reached { RootReached (root_parts R.ResolverSet L.Plan H.Rounds P.Turns)
        (at plan.old arena.old run.old) (at plan.new arena.new run.new) result }
    ensures nearer { result ≡ Ok false
        → events_left arena.new.states.items < events_left arena.old.states.items }
{
    // Its future's number falls while it has no answer (`polls_left`).
    'polls: loop {
        match advance(true, alloc, plan, arena, run)? {
            Reached::Pending => {}
            Reached::Begun => return Ok(false),
            Reached::Answered => return Ok(true),
        }
    }
}
