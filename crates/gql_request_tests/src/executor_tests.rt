//! An executor of the tests' own, each call of which is compared.
use gql_base::{Copied, Items, Made, NoMemory, ServerError, Value};
use gql_request::{
    BatchNoMemory, BatchRequest, BatchResponse, Data, Executor, Request, Response, StreamPoll,
};
use std::alloc::{AllocError, Global};
use std::test::Fail;

/// Executes nothing: each response has null as its data, and each stream gives one and ends.
#[derive(Clone, Copy)]
struct Idle;

/// A stream, and whether it has its response to give.
#[derive(Clone, Copy)]
struct IdleStream {
    left: bool,
}

impl Executor for Idle {
    ghost use Rattle.std.specs.Prelude.{◌≡◌, true, false, None};

    type Stream = IdleStream;

    ghost World = { Unit {0} };

    ghost world = { λ idle. tt };

    ghost is_steady = { λ idle. Unit {0} };

    ghost opened = { λ stream request session. Unit {0} };

    ghost pendings = { λ stream. 0 };

    ghost items = { λ stream. None };

    ghost refusals = { λ stream. None };

    ghost ends = { λ stream. None };

    ghost gives = { λ world stream response. stream.left ≡ true };

    ghost refuses = { λ world stream errors. ⊥ };

    ghost leaves = { λ world stream response later. Unit {0} };

    ghost becomes = { λ world before answer later. later.left ≡ false };

    fn execute(&mut self, alloc: Global, _request: Request) -> Result<Response, NoMemory> {
        Ok(Response::new(alloc, Value::Null))
    }

    fn execute_batch(
        &mut self,
        alloc: Global,
        _batch: BatchRequest,
    ) -> Result<BatchResponse, BatchNoMemory> {
        Ok(BatchResponse::Single(Response::new(alloc, Value::Null)))
    }

    fn execute_stream(
        &mut self,
        _alloc: Global,
        _request: Request,
        _session_data: &Data,
    ) -> Made<IdleStream> {
        Ok(IdleStream { left: true })
    }

    fn poll_stream(&mut self, alloc: Global, stream: &mut IdleStream) -> Made<StreamPoll> {
        if stream.left {
            stream.left = false;
            Ok(StreamPoll::Item(Response::new(alloc, Value::Null)))
        } else {
            Ok(StreamPoll::Ended)
        }
    }
}

/// Whether a stream gives a response and then ends.
fn gives_one_response<E: Executor>(alloc: Global, executor: &mut E) -> Made<bool> {
    let data = Data::new(alloc);
    let request = Request::new(alloc, "{ a }")?;
    let mut stream = executor.execute_stream(alloc, request, &data)?;
    let StreamPoll::Item(_) = executor.poll_stream(alloc, &mut stream)? else {
        return Ok(false);
    };
    match executor.poll_stream(alloc, &mut stream)? {
        StreamPoll::Ended => Ok(true),
        _ => Ok(false),
    }
}

#[test]
fn a_stream_gives_its_response(rt: HostRuntime) -> Result<(), Fail> {
    assert!(rt; gives_one_response(rt.alloc(), &mut Idle)?);
    Ok(())
}

/// Whether the copy of a poll is the same refusal.
fn refusal_is_copied(alloc: Global) -> Made<bool> {
    let mut errors = Items::new(alloc);
    errors.push(ServerError::new(alloc, "no", None)?)?;
    match StreamPoll::Refused(errors).try_clone(alloc)? {
        StreamPoll::Refused(copies) => Ok(copies.len() == 1),
        _ => Ok(false),
    }
}

#[test]
fn polls_are_copied(rt: HostRuntime) -> Result<(), Fail> {
    assert!(rt; refusal_is_copied(rt.alloc())?);
    Ok(())
}

#[test]
fn a_want_before_a_batch(rt: HostRuntime) {
    assert_eq!(rt;
        BatchNoMemory::from(AllocError),
        BatchNoMemory { done: 0, roots: 0 }
    );
}
