//! Requests on threads of their own.
ghost use Rattle.std.specs.Prelude.{◌≡◌, IfOk, length, vec_len};
ghost use Rattle.gql_serve.specs.Threads.{AnswersAll, IsAnswer};

use crate::executing::execute_bare;
use gql_base::{Items, Made, NoMemory};
use gql_exec::{DynamicRequest, Schema};
use gql_request::Response;
use gql_resolve::{ResolverSet, Turns};
use std::alloc::Global;
use std::thread;
use std::thread::Threads;

/// A request with a resolver set and turns of its own.
#[derive(Drop)]
pub struct Work<R: ResolverSet + Drop, P: Turns + Drop> {
    pub resolvers: R,
    pub request: DynamicRequest<R::Own>,
    pub turns: P,
}

/// The answers to works, each of which is executed on a thread without hooks, in the order of the
/// works. It waits for all threads.
pub fn execute_batch_threads<
    R: ResolverSet + Drop + Send,
    P: Turns + Drop + Send,
    T: Threads + Sync,
>(
    rt: &T,
    alloc: Global,
    schema: &Schema,
    work: Vec<Work<R, P>>,
) -> Made<Items<Result<Response, NoMemory>>>
where
    R::Own: Send,
    R::World: Send,
    R::Future: Send,
    ensures many { IfOk result (λ answers. length answers ≡ vec_len work) }
    ensures each { IfOk result (λ answers. AnswersAll R.ResolverSet P.Turns schema.now work.items
        answers) }
{
    let answers = thread::map_vec(
        rt,
        work,
        &|work: Work<R, P>| -> Result<Response, NoMemory>
            ensures { IsAnswer R.ResolverSet P.Turns schema.entry.now work result }
        { execute_work(alloc, schema, work) },
    )?;
    Ok(Items::from_vec(answers))
}

/// The answer to one work.
fn execute_work<R: ResolverSet + Drop, P: Turns + Drop>(
    alloc: Global,
    schema: &Schema,
    work: Work<R, P>,
) -> Result<Response, NoMemory>
    ensures { IsAnswer R.ResolverSet P.Turns schema.now work result }
{
    let Work {
        mut resolvers,
        request,
        mut turns,
    } = work;
    execute_bare(alloc, schema, &mut resolvers, &request, &mut turns)
}
