//! Works that wait: for each other, which only works at one time can end, and for nothing.
use crate::cells::Last;
use crate::requests::{is_answer, request};
use crate::schemas::schema;
use crate::waits::Waits;
use gql_base::{Made, NoMemory};
use gql_exec::Schema;
use gql_request::Response;
use gql_serve::{Work, execute_batch_threads};
use std::alloc::Global;
use std::sync::Arc;
use std::sync::atomic::AtomicU64;
use std::test::Fail;
use std::thread::Threads;

/// A count of polls that works share.
type Polls = Arc<AtomicU64, Global>;

/// A count of no polls.
fn no_polls(alloc: Global) -> Made<Polls> {
    Ok(Arc::new(alloc, AtomicU64::new(0))?)
}

/// Adds a work that counts its polls, and waits for so many of them until another work was polled.
fn add(
    alloc: Global,
    works: &mut Vec<Work<Waits, Last>>,
    mine: &Polls,
    other: &Polls,
    polls: u64,
) -> Made<()> {
    let mine = Arc::try_clone(mine)?;
    let other = Arc::try_clone(other)?;
    let resolvers = Waits { mine, other, polls };
    works.push(Work {
        resolvers,
        request: request(alloc, "{ cell }")?,
        turns: Last,
    })?;
    Ok(())
}

/// Two works, each of which waits until the other is polled.
fn both(alloc: Global, works: &mut Vec<Work<Waits, Last>>) -> Made<()> {
    let one = no_polls(alloc)?;
    let two = no_polls(alloc)?;
    add(alloc, works, &one, &two, 10_000_000)?;
    add(alloc, works, &two, &one, 10_000_000)
}

/// A work that waits for one that isn't there.
fn alone(alloc: Global, works: &mut Vec<Work<Waits, Last>>) -> Made<()> {
    let one = no_polls(alloc)?;
    let none = no_polls(alloc)?;
    add(alloc, works, &one, &none, 1_000)
}

/// How many of these answers are the response with this JSON.
fn right(alloc: Global, answers: &[Result<Response, NoMemory>], json: &str) -> Made<u64> {
    let mut right = 0u64;
    for answer in answers {
        if is_answer(alloc, answer, json)? {
            right = right.wrapping_add(1);
        }
    }
    Ok(right)
}

/// How many works are answered so.
fn answered<T: Threads + Sync>(
    rt: &T,
    alloc: Global,
    schema: &Schema,
    works: Vec<Work<Waits, Last>>,
    json: &str,
) -> Made<u64> {
    let answers = execute_batch_threads(rt, alloc, schema, works)?;
    let right = right(alloc, answers.as_slice(), json);
    drop(answers);
    right
}

/// The response of a work that was polled after the other one.
const POLLED: &str = r#"{"data":{"cell":1}}"#;

/// The response of a work that waited for as many polls as it may.
const NOT_POLLED: &str =
    r#"{"data":{"cell":null},"errors":[{"message":"not polled","locations":[{"line":1,"column":3}],"path":["cell"]}]}"#;

/// How many of two works that wait for each other were polled after the other one.
fn polled<T: Threads + Sync>(rt: &T, alloc: Global, schema: &Schema) -> Made<u64> {
    let mut works = Vec::new(alloc);
    both(alloc, &mut works)?;
    answered(rt, alloc, schema, works, POLLED)
}

/// How many works waited in vain.
fn not_polled<T: Threads + Sync>(rt: &T, alloc: Global, schema: &Schema) -> Made<u64> {
    let mut works = Vec::new(alloc);
    alone(alloc, &mut works)?;
    answered(rt, alloc, schema, works, NOT_POLLED)
}

#[test]
fn each_waits_for_the_other(rt: HostRuntime) -> Result<(), Fail> {
    let schema = schema(rt.alloc(), 0)?;
    assert_eq!(rt; polled(&rt, rt.alloc(), &schema)?, 2);
    Ok(())
}

#[test]
fn one_waits_in_vain(rt: HostRuntime) -> Result<(), Fail> {
    let schema = schema(rt.alloc(), 0)?;
    assert_eq!(rt; not_polled(&rt, rt.alloc(), &schema)?, 1);
    Ok(())
}
