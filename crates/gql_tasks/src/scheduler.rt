//! The turns of tasks until all have their answers, in any order (GraphQL, October 2021, section
//! 6.3.1).
ghost use Rattle.std.specs.Prelude.{◌≡◌, ◌<◌, [], true, length, IfOk, OnOk};
ghost use Rattle.gql_tasks.specs.Advance.{Advanced, ReachedNearer, roots_turned};
ghost use Rattle.gql_tasks.specs.Arena.{events_left};
ghost use Rattle.gql_tasks.specs.Parts.{parts, parts_as, at};
ghost use Rattle.gql_tasks.specs.Progress.{IsSound, Stretch};

use crate::arena::{Arena, Turn};
use crate::given::Given;
use crate::keeping::keep_given;
use crate::picking::pick_task;
use crate::plan::Plan;
use crate::rounds::Rounds;
use crate::run::Run;
use crate::turning::take_turn;
use gql_base::{Made, NoMemory};
use gql_resolve::{ResolverSet, Turns};
use std::alloc::{AllocError, Global};
use std::sync::ledger::Ledger;

/// How far a turn has come: its task's first one without an answer, a later one, or its answer.
pub(crate) enum Reached {
    Begun,
    Pending,
    Answered,
}

/// One turn: picks one of the tasks that wait, aims the plan at it, takes it up, as a root of a
/// mutation or as another task, and keeps its answer where it has one. Want of memory tells a root
/// where its effect stands.
pub(crate) fn advance<R: ResolverSet, L: Plan<R::Own>, H: Rounds, P: Turns, S: Ledger>(
    root: bool,
    alloc: Global,
    plan: &mut L,
    arena: &mut Arena<R::Future>,
    run: &mut Run<'_, R, H, P, S>,
) -> Result<Reached, NoMemory>
    requires sound { IsSound (parts_as R.ResolverSet root L.Plan H.Rounds P.Turns)
        (at plan.old arena.old run.old) }
    requires some { 0 < length arena.old.waiting }
    requires alone { root ≡ true → length arena.old.waiting ≡ 1 }
    ensures turned { Advanced (parts_as R.ResolverSet root L.Plan H.Rounds P.Turns)
        (at plan.old arena.old run.old) (at plan.new arena.new run.new) result }
    ensures nearer { IfOk result
        (λ reached. ReachedNearer R.number reached arena.old.states.items arena.new.states.items) }
{
    let picked = pick_task(arena, run.turns);
    plan.aim(alloc, picked.number)?;
    let turn = {
        let context = plan.context(picked.number);
        let info = plan.info(picked.number);
        take_turn(
            root,
            alloc,
            run,
            &mut arena.states[picked.number],
            &context,
            &info,
        )?
    };
    match turn {
        Turn::Begun => Ok(Reached::Begun),
        Turn::Pending => Ok(Reached::Pending),
        Turn::Answered(given) => {
            let roots = roots_of(root, &given);
            match keep_given(alloc, plan, arena, picked, given) {
                Ok(()) => Ok(Reached::Answered),
                Err(_) => Err(NoMemory { roots }),
            }
        }
    }
}

/// How many roots have their effect with what a task was given: what a hook puts has none.
fn roots_of<V>(root: bool, given: &Given<V>) -> u64
    ensures { result ≡ roots_turned root given.now }
{
    match given {
        Given::Answered(_) => u64::from(root),
        Given::Put(_) => 0,
    }
}

/// Turns until a task has begun or has its answer.
fn reach_event<R: ResolverSet, L: Plan<R::Own>, H: Rounds, P: Turns, S: Ledger>(
    alloc: Global,
    plan: &mut L,
    arena: &mut Arena<R::Future>,
    run: &mut Run<'_, R, H, P, S>,
) -> Made<()>
    requires sound { IsSound (parts R.ResolverSet L.Plan H.Rounds P.Turns)
        (at plan.old arena.old run.old) }
    requires some { 0 < length arena.old.waiting }
    ensures stretch { Stretch (parts R.ResolverSet L.Plan H.Rounds P.Turns)
        (at plan.old arena.old run.old) (at plan.new arena.new run.new) result }
    ensures nearer { OnOk result
        (events_left arena.new.states.items < events_left arena.old.states.items) }
{
    // The futures' numbers fall while no task begins or has its answer (`polls_left`).
    'polls: loop {
        match advance(false, alloc, plan, arena, run) {
            Ok(reached) => match reached {
                Reached::Pending => {}
                Reached::Begun => return Ok(()),
                Reached::Answered => return Ok(()),
            },
            Err(_) => return Err(AllocError),
        }
    }
}

/// Turns until every task has its answer. Where none waits, nothing is asked of any set and any
/// turns.
pub fn finish<R: ResolverSet, L: Plan<R::Own>, H: Rounds, P: Turns, S: Ledger>(
    alloc: Global,
    plan: &mut L,
    arena: &mut Arena<R::Future>,
    run: &mut Run<'_, R, H, P, S>,
) -> Made<()>
    requires sound { IsSound (parts R.ResolverSet L.Plan H.Rounds P.Turns)
        (at plan.old arena.old run.old) }
    ensures stretch { Stretch (parts R.ResolverSet L.Plan H.Rounds P.Turns)
        (at plan.old arena.old run.old) (at plan.new arena.new run.new) result }
    ensures answered { OnOk result (arena.new.waiting ≡ []) }
    ensures idle { arena.old.waiting ≡ [] → run.new ≡ run.old }
{
    // Fewer starts and answers are to come after each (`events_left`).
    'events: while !arena.waiting.is_empty() {
        reach_event(alloc, plan, arena, run)?;
    }
    Ok(())
}
