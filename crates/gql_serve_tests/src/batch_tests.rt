//! Works on threads: each is answered in its place.
use crate::cells::{Cells, Last};
use crate::requests::{is_answer, request};
use crate::schemas::schema;
use gql_base::{Items, Made, NoMemory};
use gql_exec::Schema;
use gql_request::Response;
use gql_serve::{Work, execute_batch_threads};
use std::alloc::Global;
use std::test::Fail;
use std::thread::Threads;

/// A work that asks for a cell.
fn work(alloc: Global, cell: u64) -> Made<Work<Cells, Last>> {
    Ok(Work {
        resolvers: Cells { cell },
        request: request(alloc, "{ cell }")?,
        turns: Last,
    })
}

/// So many works, each of which asks for a cell that has its number.
fn works(alloc: Global, many: u64) -> Made<Vec<Work<Cells, Last>>> {
    let mut works = Vec::new(alloc);
    for cell in 0..many {
        works.push(work(alloc, cell)?)?;
    }
    Ok(works)
}

/// What is answered to so many works.
fn answers<T: Threads + Sync>(
    rt: &T,
    alloc: Global,
    schema: &Schema,
    many: u64,
) -> Made<Items<Result<Response, NoMemory>>> {
    execute_batch_threads(rt, alloc, schema, works(alloc, many)?)
}

/// Whether an answer is the cell of this number.
fn is_cell(alloc: Global, answer: &Result<Response, NoMemory>, cell: u64) -> Made<bool> {
    let mut json = String::new(alloc);
    write!(json, r#"{{"data":{{"cell":{cell}}}}}"#)?;
    is_answer(alloc, answer, json.as_str())
}

/// The number of the first work that isn't answered by its own cell.
fn first_wrong(alloc: Global, answers: &[Result<Response, NoMemory>]) -> Made<Option<u64>> {
    let mut number = 0u64;
    for answer in answers {
        if !is_cell(alloc, answer, number)? {
            return Ok(Some(number));
        }
        number = number.wrapping_add(1);
    }
    Ok(None)
}

/// How many answers there are to so many works, and the first wrong one.
fn told<T: Threads + Sync>(
    rt: &T,
    alloc: Global,
    schema: &Schema,
    many: u64,
) -> Made<(usize, Option<u64>)> {
    let answers = answers(rt, alloc, schema, many)?;
    let many = answers.len();
    let wrong = first_wrong(alloc, answers.as_slice());
    drop(answers);
    Ok((many, wrong?))
}

#[test]
fn no_works(rt: HostRuntime) -> Result<(), Fail> {
    let schema = schema(rt.alloc(), 0)?;
    assert_eq!(rt; told(&rt, rt.alloc(), &schema, 0)?, (0, None));
    Ok(())
}

#[test]
fn a_thousand_works(rt: HostRuntime) -> Result<(), Fail> {
    let schema = schema(rt.alloc(), 0)?;
    assert_eq!(rt; told(&rt, rt.alloc(), &schema, 1000)?, (1000, None));
    Ok(())
}
