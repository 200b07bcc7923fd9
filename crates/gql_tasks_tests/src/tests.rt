//! Tasks and turns on sets that no law speaks of. What a test looks at is made by small functions
//! beside it.
ghost use Rattle.std.specs.Prelude.{◌≡◌, ◌<◌, true, false};
ghost use Rattle.gql_resolve.specs.Call.{is_mutation};

use crate::ground::Ground;
use crate::meeting::{Alternate, Meeting};
use crate::numbers::Numbers;
use crate::telling::Telling;
use gql_base::{Made, NoMemory, Steps};
use gql_doc::OperationType;
use gql_request::Hooks;
use gql_tasks::{Rounds, Run, finish, fresh_arena, run_phase};
use std::alloc::Global;
use std::marker::Brand;
use std::sync::ledger::{Blank, Ledger};
use std::test::Fail;

/// The entries of a record: the task, its resolver, its path, and whether it was ready.
fn record_text(alloc: Global, set: &Meeting) -> Made<String> {
    let mut out = String::new(alloc);
    for entry in set.entries.as_slice() {
        let path = entry.path.as_str();
        let (task, resolver, ready) = (entry.task, entry.resolver, entry.ready);
        write!(out, "{task} {resolver} {path} {ready};")?;
    }
    Ok(out)
}

/// What the numbers 0 and 1 and those under them are given.
fn pair<H: Rounds, S: Ledger>(
    alloc: Global,
    ground: &Ground,
    set: &mut Meeting,
    hooks: &mut H,
    blank: Blank,
) -> Made<String>
    requires query { is_mutation ground.now.env.operation.node.ty ≡ false }
    requires name { blank.name ≡ S.name }
    requires parts { blank.parts ≡ S.parts }
    requires some { 0 < blank.parts }
{
    let mut plan = Numbers::new(alloc);
    plan.push(ground, 0)?;
    plan.push(ground, 1)?;
    let mut arena = fresh_arena(alloc, 2)?;
    let mut turns = Alternate { second: false };
    let mut steps: Steps<S> = Steps::new(blank);
    let mut run = Run::over(set, hooks, &mut turns, &mut steps);
    finish(alloc, &mut plan, &mut arena, &mut run)?;
    Ok(plan.into_given())
}

/// What the number 1 as a root of a mutation, and those under it, are given.
fn root<S: Ledger>(
    alloc: Global,
    ground: &Ground,
    set: &mut Meeting,
    blank: Blank,
) -> Result<String, NoMemory>
    requires mutation { is_mutation ground.now.env.operation.node.ty ≡ true }
    requires name { blank.name ≡ S.name }
    requires parts { blank.parts ≡ S.parts }
    requires some { 0 < blank.parts }
{
    let mut plan = Numbers::new(alloc);
    plan.push(ground, 1)?;
    let mut arena = fresh_arena(alloc, 1)?;
    let mut hooks = Hooks::none(alloc);
    let mut turns = Alternate { second: false };
    let mut steps: Steps<S> = Steps::new(blank);
    let mut run = Run::over(set, &mut hooks, &mut turns, &mut steps);
    run_phase(alloc, &mut plan, &mut arena, &mut run)?;
    Ok(plan.into_given())
}

#[test]
fn a_task_may_wait_for_another(rt: HostRuntime) -> Result<(), Fail> {
    let ground = Ground::new(rt.alloc(), OperationType::Query)?;
    let mut set = Meeting::new(rt.alloc());
    let mut hooks = Hooks::none(rt.alloc());
    let given = pair::<Hooks, Brand>(rt.alloc(), &ground, &mut set, &mut hooks, Blank::new(1))?;
    let record = record_text(rt.alloc(), &set)?;
    assert_eq!(rt; given.as_str(), "1=1;0=0;3=1;2=0;5=1;4=0;");
    assert_eq!(rt;
        record.as_str(),
        "0 0 0 false;1 1 1 true;0 0 0 true;3 1 1.1 true;2 0 1.0 true;5 1 0.1 true;4 0 0.0 true;"
    );
    Ok(())
}

#[test]
fn hooks_are_told_of_each_task_once(rt: HostRuntime) -> Result<(), Fail> {
    let ground = Ground::new(rt.alloc(), OperationType::Query)?;
    let mut set = Meeting::new(rt.alloc());
    let mut hooks = Telling::new(rt.alloc());
    let given = pair::<Telling, Brand>(rt.alloc(), &ground, &mut set, &mut hooks, Blank::new(1))?;
    assert_eq!(rt; given.as_str(), "1=1;0=0;3=1;2=0;5=1;4=0;");
    assert_eq!(rt;
        hooks.text.as_str(),
        "0 is Query.b as x: Int;1 is Query.b as x: Int;1 1 is Query.b as x: Int;\
         1 0 is Query.b as x: Int;0 1 is Query.b as x: Int;0 0 is Query.b as x: Int;"
    );
    Ok(())
}

#[test]
fn a_root_of_a_mutation_is_answered_alone(rt: HostRuntime) -> Result<(), Fail> {
    let ground = Ground::new(rt.alloc(), OperationType::Mutation)?;
    let mut set = Meeting::new(rt.alloc());
    let given = root::<Brand>(rt.alloc(), &ground, &mut set, Blank::new(1))?;
    let record = record_text(rt.alloc(), &set)?;
    assert_eq!(rt; given.as_str(), "0=1;2=1;1=0;");
    assert_eq!(rt; record.as_str(), "0 1 1 true;2 1 1.1 true;1 0 1.0 true;");
    assert!(rt; set.root_polled);
    Ok(())
}
