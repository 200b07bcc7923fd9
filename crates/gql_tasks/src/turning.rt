//! One turn of one task: its hooks, the start of its resolver, and the polls of the future
//! (GraphQL, October 2021, section 6.4.2).
ghost use Rattle.std.specs.Prelude.{◌≡◌, IfOk};
ghost use Rattle.gql_resolve.specs.Record.{with_more, entries_of_poll};
ghost use Rattle.gql_resolve.specs.Lawful.{plain_answer, PromisesPoll};
ghost use Rattle.gql_resolve.specs.Paced.{PollsPaced};
ghost use Rattle.gql_resolve.specs.Call.{call_of};
ghost use Rattle.gql_tasks.specs.Keeps.{KeepsSet};
ghost use Rattle.gql_tasks.specs.Pace.{TurnPaced};
ghost use Rattle.gql_tasks.specs.Parts.{due_by, delay_by};
ghost use Rattle.gql_tasks.specs.Root.{effect_by, world_polled, world_turned, PollsRightly};
ghost use Rattle.gql_tasks.specs.Rounds.{data_seen};
ghost use Rattle.gql_tasks.specs.Turn.{IsNoPut, IsOpen, TurnOf, AnswersRightly, told_by_turn};
ghost use Rattle.gql_tasks.specs.Turning.{BeginsOnce, EntersOnce, TurnKeeps};

use crate::arena::{State, Turn};
use crate::given::Given;
use crate::rounds::Rounds;
use crate::run::Run;
use gql_base::{Items, Made};
use gql_request::{Entered, ExtensionContext, ResolveInfo};
use gql_resolve::{
    Answer, FieldFuture, FieldValue, Layers, Polled, ResolverContext, ResolverSet, Turns,
};
use std::alloc::Global;
use std::sync::ledger::Ledger;

/// Takes up a task: begins it where it is fresh, and polls its future, as that of a root of a
/// mutation or of another task. The world stays, but for the effect of a root that its resolver
/// answered.
#[tactic(auto, using(crate::proofs::TurningSteps::later_steps))]
pub(crate) fn take_turn<R: ResolverSet, H: Rounds, P: Turns, S: Ledger>(
    root: bool,
    alloc: Global,
    run: &mut Run<'_, R, H, P, S>,
    state: &mut State<R::Future>,
    context: &ResolverContext<'_, R::Own>,
    info: &ResolveInfo<'_>,
) -> Made<Turn<R::Own>>
    requires open { IsOpen R.is_for (call_of context.now) state.old }
    requires root { (call_of context.now).is_root ≡ root }
    ensures keeps { TurnKeeps R.ResolverSet H.Rounds run.old run.new result }
    ensures promise { IfOk result
        (TurnOf R.ResolverSet (call_of context.now) state.old state.new) }
    ensures world { R.is_lawful run.old.set.now → R.world run.new.set.now ≡ world_turned root
        (effect_by R.ResolverSet run.old.set.now (call_of context.now))
        (R.world run.old.set.now) result }
    ensures entered { EntersOnce H.Rounds context.now info.now state.old run.old run.new result }
    ensures answer { R.is_lawful run.old.set.now → H.are_quiet run.old.hooks.now → AnswersRightly
        (due_by R.ResolverSet run.old.set.now (call_of context.now)) result }
    ensures paced { H.are_quiet run.old.hooks.now → R.is_paced run.old.set.now → IfOk result
        (TurnPaced R.number (delay_by R.ResolverSet run.old.set.now context.now.resolver)
        state.old state.new) }
    ensures told { H.are_quiet run.old.hooks.now → R.told run.new.set.now
        ≡ with_more (R.told run.old.set.now) (told_by_turn context.now result) }
    ensures begun { H.are_quiet run.old.hooks.now → BeginsOnce R.ResolverSet context.now.task
        state.old run.old run.new result }
{
    match state {
        State::Fresh => begin(root, alloc, run, state, context, info),
        State::Waiting(future) => match poll_as(root, alloc, run.set, future, context)? {
            Polled::Ready(answer) => Ok(Turn::Answered(Given::Answered(answer))),
            Polled::Pending => Ok(Turn::Pending),
        },
        State::Done => unreachable!(),
    }
}

/// The first turn of a task: the hooks, the start, and the first poll of a future.
#[tactic(auto, using(crate::proofs::TurningSteps::first_steps))]
fn begin<R: ResolverSet, H: Rounds, P: Turns, S: Ledger>(
    root: bool,
    alloc: Global,
    run: &mut Run<'_, R, H, P, S>,
    state: &mut State<R::Future>,
    context: &ResolverContext<'_, R::Own>,
    info: &ResolveInfo<'_>,
) -> Made<Turn<R::Own>>
    requires { (call_of context.now).is_root ≡ root }
    ensures keeps { TurnKeeps R.ResolverSet H.Rounds run.old run.new result }
    ensures promise { IfOk result
        (TurnOf R.ResolverSet (call_of context.now) State.Fresh state.new) }
    ensures world { R.is_lawful run.old.set.now → R.world run.new.set.now ≡ world_turned root
        (effect_by R.ResolverSet run.old.set.now (call_of context.now))
        (R.world run.old.set.now) result }
    ensures entered { EntersOnce H.Rounds context.now info.now State.Fresh run.old run.new result }
    ensures answer { R.is_lawful run.old.set.now → H.are_quiet run.old.hooks.now → AnswersRightly
        (due_by R.ResolverSet run.old.set.now (call_of context.now)) result }
    ensures paced { H.are_quiet run.old.hooks.now → R.is_paced run.old.set.now → IfOk result
        (TurnPaced R.number (delay_by R.ResolverSet run.old.set.now context.now.resolver)
        State.Fresh state.new) }
    ensures told { H.are_quiet run.old.hooks.now → R.told run.new.set.now
        ≡ with_more (R.told run.old.set.now) (told_by_turn context.now result) }
    ensures begun { H.are_quiet run.old.hooks.now → BeginsOnce R.ResolverSet context.now.task
        State.Fresh run.old run.new result }
{
    match run.hooks.enter(&data_for_hooks(context.layers), info)? {
        Entered::Answer(put) => Ok(Turn::Answered(Given::Put(put))),
        Entered::Go => {
            let started = run.set.start(alloc, context)?;
            run.steps.tick();
            match started {
                FieldFuture::Value(value) => Ok(Turn::Answered(Given::Answered(answer_of(
                    alloc, value,
                )))),
                FieldFuture::Future(future) => poll_first(
                    root, alloc, run.set, state, future, context,
                ),
            }
        }
    }
}

/// Polls a future for the first time, and keeps it where it is pending.
fn poll_first<R: ResolverSet>(
    root: bool,
    alloc: Global,
    set: &mut R,
    state: &mut State<R::Future>,
    future: R::Future,
    context: &ResolverContext<'_, R::Own>,
) -> Made<Turn<R::Own>>
    requires { R.is_for future (call_of context.now) }
    ensures put { IfOk result (λ given. IsNoPut given) }
    ensures keeps { KeepsSet R.ResolverSet set.old set.new }
    ensures promise { IfOk result
        (TurnOf R.ResolverSet (call_of context.now) State.Fresh state.new) }
    ensures world { R.is_lawful set.old → R.world set.new ≡ world_turned root
        (effect_by R.ResolverSet set.old (call_of context.now)) (R.world set.old) result }
    ensures answer { R.is_lawful set.old → AnswersRightly
        (due_by R.ResolverSet set.old (call_of context.now)) result }
    ensures paced { R.is_paced set.old
        → IfOk result (TurnPaced R.number (R.number future) State.Fresh state.new) }
    ensures told { R.told set.new ≡ with_more (R.told set.old)
        (told_by_turn context.now result) }
    ensures begun { R.begun set.new ≡ R.begun set.old }
{
    let mut future = future;
    match poll_as(root, alloc, set, &mut future, context)? {
        Polled::Ready(answer) => Ok(Turn::Answered(Given::Answered(answer))),
        Polled::Pending => {
            *state = State::Waiting(future);
            Ok(Turn::Begun)
        }
    }
}

/// Polls a future, as that of a root of a mutation or of another task.
#[tactic(auto, using(crate::proofs::TurningSteps::poll_steps))]
fn poll_as<R: ResolverSet>(
    root: bool,
    alloc: Global,
    set: &mut R,
    future: &mut R::Future,
    context: &ResolverContext<'_, R::Own>,
) -> Made<Polled<R::Own>>
    requires { R.is_for future.old (call_of context.now) }
    ensures keeps { KeepsSet R.ResolverSet set.old set.new }
    ensures promise { IfOk result (PromisesPoll R.is_for R.number
        (call_of context.now) future.old future.new) }
    ensures world { R.is_lawful set.old → R.world set.new ≡ world_polled root
        (effect_by R.ResolverSet set.old (call_of context.now)) (R.world set.old) result }
    ensures answer { R.is_lawful set.old → PollsRightly
        (due_by R.ResolverSet set.old (call_of context.now)) result }
    ensures paced { R.is_paced set.old
        → IfOk result (PollsPaced R.number future.old future.new) }
    ensures told { R.told set.new
        ≡ with_more (R.told set.old) (entries_of_poll context.now result) }
    ensures begun { R.begun set.new ≡ R.begun set.old }
{
    if root {
        set.poll_root(alloc, future, context)
    } else {
        set.poll(alloc, future, context)
    }
}

/// The answer of a start that gives a value: no error and no header is added.
fn answer_of<V>(alloc: Global, value: Option<FieldValue<V>>) -> Answer<V>
    ensures { result ≡ plain_answer value }
{
    Answer {
        result: Ok(value),
        added: Items::new(alloc),
        headers: Items::new(alloc),
    }
}

/// What hooks see of the data of an execution: the layers without what hooks added.
fn data_for_hooks<'a>(layers: Layers<'a>) -> ExtensionContext<'a>
    ensures { result ≡ data_seen layers.entry }
{
    ExtensionContext {
        schema_data: layers.schema,
        session_data: layers.session,
        query_data: Some(layers.query),
    }
}
