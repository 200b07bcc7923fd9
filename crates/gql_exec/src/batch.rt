//! The execution of batches: requests one after another over one world.
ghost use Rattle.std.specs.Prelude.{◌≡◌, length, IfErr, IfOk};
ghost use Rattle.gql_tasks.specs.Keeps.{KeepsSet};
ghost use Rattle.gql_tasks.specs.Progress.{seen};
ghost use Rattle.gql_exec.specs.Batch.{ExecutesAll, StopsAfter};

use crate::dynamic_request::DynamicRequest;
use crate::schema::Schema;
use gql_base::Items;
use gql_request::{BatchNoMemory, Hooks, Response};
use gql_resolve::{ResolverSet, Turns};
use std::alloc::Global;

impl Schema {
    /// The responses to requests, which are executed one after another in their order over one
    /// resolver set: each in the world that those before it left. Where memory runs out, it is
    /// known of how many requests the effects stand, and how far the next one came. A request whose
    /// response finds no room is done, too.
    #[tactic(auto, using(crate::proofs::BatchLemmas::batch_steps))]
    pub fn execute_batch<R: ResolverSet, P: Turns>(
        &self,
        alloc: Global,
        resolvers: &mut R,
        hooks: &mut Hooks,
        requests: &[DynamicRequest<R::Own>],
        turns: &mut P,
    ) -> Result<Items<Response>, BatchNoMemory>
        ensures executed { IfOk result (λ responses. ExecutesAll R.ResolverSet P.Turns self.now
            requests.now responses (seen resolvers.old turns.old) (seen resolvers.new turns.new)) }
        ensures as_many { IfOk result (λ responses. length responses ≡ length requests.now) }
        ensures stopped { IfErr result (λ want. StopsAfter R.ResolverSet P.Turns self.now
            requests.now want.done want.roots (seen resolvers.old turns.old)
            (seen resolvers.new turns.new)) }
        ensures keeps { KeepsSet R.ResolverSet resolvers.old resolvers.new }
    {
        let mut responses = Items::with_capacity(alloc, requests.len())?;
        for request in requests {
            let done = responses.len() as u64;
            match self.execute(alloc, resolvers, hooks, request, turns) {
                Ok(response) => match responses.push(response) {
                    Ok(()) => {}
                    Err(_) => {
                        return Err(BatchNoMemory {
                            done: done + 1,
                            roots: 0,
                        });
                    }
                },
                Err(want) => {
                    return Err(BatchNoMemory {
                        done,
                        roots: want.roots,
                    });
                }
            }
        }
        Ok(responses)
    }
}
