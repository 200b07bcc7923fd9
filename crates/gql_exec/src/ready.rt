//! What is made of a request before its execution.
ghost use Rattle.std.specs.Prelude.{◌≡◌, ◌<◌, IfOk};
ghost use Rattle.std.below.core.specs.declared.int.usize.TheConstants.{MAX};
ghost use Rattle.gql_fields.specs.Terms.{terms_of};
ghost use Rattle.gql_exec.specs.Admission.{terms_for};
ghost use Rattle.gql_exec.specs.Ready.{GivesReady, IsMadeReady};

use crate::schema::Schema;
use gql_admit::{Site, prepare};
use gql_base::{Copied, Items, Made, ServerError};
use gql_doc::OperationType;
use gql_request::{Data, Hooks, IntrospectionMode, QueryEnv, Request};
use std::alloc::Global;

/// A request that is ready for its execution.
#[derive(Drop)]
pub struct Ready {
    pub request: Request,
    /// What the execution knows of it.
    pub env: QueryEnv,
    /// The number of the resolver of `_entities`, where the query root has that field.
    pub entities: Option<u32>,
}

impl Copied for Ready {
    fn try_clone(&self, alloc: Global) -> Made<Ready> {
        Ok(Ready {
            request: self.request.try_clone(alloc)?,
            env: self.env.try_clone(alloc)?,
            entities: self.entities,
        })
    }
}

impl Schema {
    /// A request with what its execution knows of it, or the errors of the first stage that it
    /// breaks: its document is read, unless one is set, lies within the limits and breaks no rule,
    /// and the operation that is asked for is there (GraphQL, October 2021, section 6.1).
    pub fn ready(
        &self,
        alloc: Global,
        _hooks: &mut Hooks,
        request: &Request,
        _session_data: &Data,
    ) -> Made<Result<Ready, Items<ServerError>>>
        ensures { IfOk result (GivesReady self.now request.now) }
    {
        match self.prepared(alloc, request)? {
            Ok(env) => Ok(Ok(Ready {
                request: request.try_clone(alloc)?,
                env,
                entities: self.entities(request.introspection_mode),
            })),
            Err(errors) => Ok(Err(errors)),
        }
    }

    /// What the execution of a request knows of it, or the errors of the first stage that it
    /// breaks.
    pub(crate) fn prepared(
        &self,
        alloc: Global,
        request: &Request,
    ) -> Made<Result<QueryEnv, Items<ServerError>>>
        ensures { IfOk result (IsMadeReady self.now request.now) }
    {
        let site = self.site(request.introspection_mode);
        match prepare(alloc, &site, request)? {
            Ok(mut env) => {
                env.introspection_mode = self.mode(env.introspection_mode);
                Ok(Ok(env))
            }
            Err(errors) => Ok(Err(errors)),
        }
    }

    /// By what a request in a mode is admitted.
    fn site(&self, mode: IntrospectionMode) -> Site<'_>
        ensures terms { terms_of result ≡ terms_for self.entry.now mode }
        ensures limited { result.depth < MAX }
    {
        Site {
            types: self.types(),
            query: self.settings().query.as_str(),
            mutation: self.root(OperationType::Mutation),
            subscription: self.root(OperationType::Subscription),
            depth: self.settings().depth,
            directives: self.settings().directives,
            entities: self.entities(mode).is_some(),
        }
    }
}
