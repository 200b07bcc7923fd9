//! The root keys of a mutation, one after another (GraphQL, October 2021, section 6.2.2).
ghost use Rattle.std.specs.Prelude.{ℕ, ◌≡◌, ◌<◌, ◌≤◌, ◌++◌, ◌∷◌, [], true, length, slice_get, Ok};
ghost use Rattle.std.specs.Prelude.{Some, None, ◌-◌, ◌+◌, slice_set, IfErr, IfOk, OnErr, OnOk};
ghost use Rattle.std.specs.List.{AllByRecursion};
ghost use Rattle.gql_tasks.specs.Arena.{fresh_states, marks_of};
ghost use Rattle.gql_tasks.specs.Parts.{at, root_parts};
ghost use Rattle.gql_tasks.specs.Phases.{CutInTurn, InTurn, serving_by};
ghost use Rattle.gql_tasks.specs.Record.{waiting_from};
ghost use Rattle.gql_tasks.specs.declared.given.Given.TheVariants.{Put};
ghost use Rattle.gql_objects.specs.Assembly.{AllHeldSince};
ghost use Rattle.gql_engine.specs.PlanHolds.{HoldsSince};
ghost use Rattle.gql_objects.specs.KeptTasks.{store_in};
ghost use Rattle.gql_objects.specs.Jobs.{Job};
ghost use Rattle.gql_engine.specs.RootKeys.{HasPlace, IsKey, KeyCut, KeyOver, PutsLast};
ghost use Rattle.gql_engine.specs.ExecuteMutation.{answer_in_phase, PlacedInTurn};
ghost use Rattle.gql_objects.specs.Tasks.{job_of_task, jobs_in};
ghost use Rattle.gql_resolve.specs.Call.{Call};
ghost use Rattle.gql_resolve.specs.declared.answer.Answer.{Answer};

use crate::execute_field::tree_plan::TreePlan;
use gql_base::{Made, NoMemory};
use gql_objects::{Task, add_open, assemble};
use gql_place::Piece;
use gql_resolve::{ResolverSet, Turns};
use gql_tasks::{Arena, Plan, Rounds, Run, make_tasks, run_phase};
use std::alloc::Global;
use std::collections::VecDeque;
use std::sync::ledger::Ledger;

/// Answers a root key with all that is under it, and keeps its place after those of the keys
/// before. Want of memory tells how many root keys have their effect.
pub(crate) fn answer_key<'a, R: ResolverSet, H: Rounds, P: Turns, S: Ledger>(
    alloc: Global,
    task: Task<'a, R::Own>,
    plan: &mut TreePlan<'a, R::Own>,
    arena: &mut Arena<R::Future>,
    own: &mut Vec<Option<Piece>>,
    run: &mut Run<'_, R, H, P, S>,
) -> Result<(), NoMemory>
    requires root { (job_of_task task).asking.call.is_root ≡ true }
    requires short { length (job_of_task task).path ≡ 1 }
    requires closed { plan.old.kept.items ≡ [] }
    requires between { InTurn
        (root_parts R.ResolverSet ⟦<TreePlan<'a, R::Own> as Plan<R::Own>>⟧ H.Rounds P.Turns)
        (at plan.old arena.old run.old) (at plan.old arena.old run.old) [] }
    ensures over { OnOk result (KeyOver
        (root_parts R.ResolverSet ⟦<TreePlan<'a, R::Own> as Plan<R::Own>>⟧ H.Rounds P.Turns)
        (at plan.old arena.old run.old) (at plan.new arena.new run.new)
        (job_of_task task.entry)) }
    ensures cut { IfErr result (KeyCut
        (root_parts R.ResolverSet ⟦<TreePlan<'a, R::Own> as Plan<R::Own>>⟧ H.Rounds P.Turns)
        (at plan.old arena.old run.old) (at plan.new arena.new run.new)
        (job_of_task task.entry) (length own.old.items)) }
    ensures placed { R.is_lawful run.old.set.now → H.are_quiet run.old.hooks.now
        → OnOk result (HasPlace
        (answer_in_phase (serving_by R.ResolverSet run.old.set.now) (R.world run.old.set.now)
        (job_of_task task.entry)) (job_of_task task.entry) own.old.items own.new.items) }
    ensures closed { OnOk result (plan.new.kept.items ≡ []) }
    ensures own { OnOk result (length own.new.items ≡ length own.old.items + 1) }
{
    let keys = own.len() as u64;
    let number = plan.tasks.len();
    match open_key(task, plan, arena, own) {
        Ok(()) => {}
        Err(_) => return Err(NoMemory { roots: keys }),
    }
    match run_phase(alloc, plan, arena, run) {
        Ok(()) => {}
        Err(want) => return Err(behind_keys(keys, own.len() as u64, want)),
    }
    match keep_key(alloc, number, plan, own) {
        Ok(()) => Ok(()),
        Err(_) => Err(NoMemory {
            roots: own.len() as u64,
        }),
    }
}

/// Out of memory in the phase of a root key: its effect stands, or only those before.
fn behind_keys(before: u64, behind: u64, want: NoMemory) -> NoMemory
    ensures none { want.roots ≡ 0 → result.roots ≡ before }
    ensures one { want.roots ≡ 1 → result.roots ≡ behind }
{
    if want.roots == 0 {
        NoMemory { roots: before }
    } else {
        NoMemory { roots: behind }
    }
}

/// Makes the task of a root key after all others, and room for its place.
fn open_key<'a, V: Drop, F: Drop>(
    task: Task<'a, V>,
    plan: &mut TreePlan<'a, V>,
    arena: &mut Arena<F>,
    own: &mut Vec<Option<Piece>>,
) -> Made<()>
    requires closed { plan.old.kept.items ≡ [] }
    requires waits { arena.old.waiting ≡ waiting_from 0 (marks_of arena.old.states.items) }
    ensures tasks { OnOk result (jobs_in plan.new.tasks.items
        ≡ jobs_in plan.old.tasks.items ++ job_of_task task.entry ∷ []) }
    ensures held { OnOk result ((number : ℕ) → number < length (jobs_in plan.old.tasks.items)
        → HoldsSince plan.new.base (jobs_in plan.new.tasks.items)
        (store_in plan.new.kept.items plan.new.places.items) number (Put (Ok None))) }
    ensures states { OnOk result
        (arena.new.states.items ≡ arena.old.states.items ++ fresh_states 1) }
    ensures waits { OnOk result
        (arena.new.waiting ≡ waiting_from 0 (marks_of arena.new.states.items)) }
    ensures own { OnOk result (own.new.items ≡ own.old.items ++ None ∷ []) }
    ensures other { OnErr result (length own.new.items ≡ length own.old.items) }
{
    plan.begin(task)?;
    make_tasks(arena, 1)?;
    own.push(None)?;
    Ok(())
}

/// Keeps the place of a root key, whose phase is over, and nothing else of its tasks.
fn keep_key<'a, V: Drop>(
    alloc: Global,
    number: usize,
    plan: &mut TreePlan<'a, V>,
    own: &mut Vec<Option<Piece>>,
) -> Made<()>
    requires within { number < plan.old.roots }
    requires some { 0 < length own.old.items }
    ensures tasks { OnOk result (plan.new.tasks ≡ plan.old.tasks) }
    ensures closed { OnOk result (plan.new.kept.items ≡ []) }
    ensures placed { (job : Job V) (answer : Call V → Answer V)
        → slice_get (jobs_in plan.old.tasks.items) number ≡ Some job
        → AllHeldSince answer number (jobs_in plan.old.tasks.items)
        (store_in plan.old.kept.items plan.old.places.items)
        → OnOk result (PutsLast answer job own.old.items own.new.items) }
    ensures own { length own.new.items ≡ length own.old.items }
{
    let roots = plan.roots;
    let (kept, mut places) = plan.close(alloc);
    add_open(&mut places, plan.tasks.len())?;
    assemble(alloc, kept, roots, &mut places)?;
    put_last(own, places[number].take());
    plan.places = places;
    Ok(())
}

/// Puts a place at the end.
fn put_last(own: &mut Vec<Option<Piece>>, place: Option<Piece>)
    requires { 0 < length own.old.items }
    ensures { own.new.items ≡ slice_set own.old.items (length own.old.items - 1) place }
{
    let last = own.len() - 1;
    own[last] = place;
}

/// Answers root keys, one after another, each with all that is under it, also after a failure.
/// What comes are their places. Want of memory tells how many root keys have their effect.
pub(crate) fn answer_keys<'a, R: ResolverSet, H: Rounds, P: Turns, S: Ledger>(
    alloc: Global,
    tasks: VecDeque<Task<'a, R::Own>>,
    plan: &mut TreePlan<'a, R::Own>,
    arena: &mut Arena<R::Future>,
    run: &mut Run<'_, R, H, P, S>,
) -> Result<Vec<Option<Piece>>, NoMemory>
    requires keys { AllByRecursion IsKey (jobs_in tasks.items) }
    requires closed { plan.old.kept.items ≡ [] }
    requires between { InTurn
        (root_parts R.ResolverSet ⟦<TreePlan<'a, R::Own> as Plan<R::Own>>⟧ H.Rounds P.Turns)
        (at plan.old arena.old run.old) (at plan.old arena.old run.old) [] }
    ensures over { OnOk result (InTurn
        (root_parts R.ResolverSet ⟦<TreePlan<'a, R::Own> as Plan<R::Own>>⟧ H.Rounds P.Turns)
        (at plan.old arena.old run.old) (at plan.new arena.new run.new)
        (jobs_in tasks.entry.items)) }
    ensures cut { IfErr result (CutInTurn
        (root_parts R.ResolverSet ⟦<TreePlan<'a, R::Own> as Plan<R::Own>>⟧ H.Rounds P.Turns)
        (at plan.old arena.old run.old) (at plan.new arena.new run.new)
        (jobs_in tasks.entry.items)) }
    ensures placed { R.is_lawful run.old.set.now → H.are_quiet run.old.hooks.now
        → IfOk result (λ own.
        PlacedInTurn (serving_by R.ResolverSet run.old.set.now) (R.world run.old.set.now)
        (jobs_in tasks.entry.items) own.items) }
    ensures count { IfOk result (λ own. length own.items ≡ length (jobs_in tasks.entry.items)) }
    ensures idle { jobs_in tasks.entry.items ≡ [] → run.new ≡ run.old }
{
    let mut tasks = tasks;
    let mut own = Vec::new(alloc);
    'keys: while let Some(task) = tasks.pop_front() {
        answer_key(alloc, task, plan, arena, &mut own, run)?;
    }
    Ok(own)
}
