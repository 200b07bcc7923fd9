//! A phase of a mutation: one root key with all that is under it.
ghost use Rattle.std.specs.Prelude.{◌≡◌, length, IfErr, OnOk};
ghost use Rattle.gql_tasks.specs.Parts.{root_parts, at};
ghost use Rattle.gql_tasks.specs.Phases.{PhaseCut, PhaseOver};
ghost use Rattle.gql_tasks.specs.Progress.{IsSound};

use crate::arena::Arena;
use crate::plan::Plan;
use crate::root::answer_root;
use crate::rounds::Rounds;
use crate::run::Run;
use crate::scheduler::finish;
use gql_base::NoMemory;
use gql_resolve::{ResolverSet, Turns};
use std::alloc::Global;
use std::sync::ledger::Ledger;

/// Answers the one task that waits, as a root of a mutation, and then all under it, in the world
/// that it leaves. Want of memory tells the root where its effect stands.
pub fn run_phase<R: ResolverSet, L: Plan<R::Own>, H: Rounds, P: Turns, S: Ledger>(
    alloc: Global,
    plan: &mut L,
    arena: &mut Arena<R::Future>,
    run: &mut Run<'_, R, H, P, S>,
) -> Result<(), NoMemory>
    requires sound { IsSound (root_parts R.ResolverSet L.Plan H.Rounds P.Turns)
        (at plan.old arena.old run.old) }
    requires alone { length arena.old.waiting ≡ 1 }
    ensures over { OnOk result (PhaseOver (root_parts R.ResolverSet L.Plan H.Rounds P.Turns)
        (at plan.old arena.old run.old) (at plan.new arena.new run.new)) }
    ensures cut { IfErr result (PhaseCut (root_parts R.ResolverSet L.Plan H.Rounds P.Turns)
        (at plan.old arena.old run.old) (at plan.new arena.new run.new)) }
{
    answer_root(alloc, plan, arena, run)?;
    match finish(alloc, plan, arena, run) {
        Ok(()) => Ok(()),
        Err(_) => Err(NoMemory { roots: 1 }),
    }
}
