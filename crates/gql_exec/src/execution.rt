//! The execution of requests (GraphQL, October 2021, section 6).
ghost use Rattle.std.specs.Prelude.{◌≡◌, ◌+◌, ◌<◌, [], true, false, IfErr, IfOk, OnOk};
ghost use Rattle.gql_tasks.specs.Keeps.{Keeps, KeepsSet};
ghost use Rattle.gql_tasks.specs.Progress.{seen, seen_in};
ghost use Rattle.gql_tasks.specs.Steps.{IsCounted};
ghost use Rattle.gql_exec.specs.Admitted.{fault_response, IsRefused};
ghost use Rattle.gql_exec.specs.Bare.{bare_scene};
ghost use Rattle.gql_exec.specs.Counting.{CountsTasks};
ghost use Rattle.gql_exec.specs.Execution.{asks, ExecutesAs, HaltsAs, RunsAs, StopsAs, TellsAs};
ghost use Rattle.gql_exec.specs.Joined.{mutates, tasks_by};
ghost use Rattle.gql_exec.specs.Response.{Counts, IsResponseTo, LeavesWorld};
ghost use Rattle.gql_exec.specs.Scene.{scene_for};
ghost use Rattle.gql_exec.specs.SchemaOnly.{is_schema_only};
ghost use Rattle.gql_engine.specs.ExecuteQuery.{AgreesInside};
ghost use Rattle.gql_collect.specs.Basis.{is_introspection_only};
ghost use Rattle.gql_collect.specs.declared.basis.Grouping.TheVariants as grouping;
ghost use Rattle.gql_meaning.specs.Served.{served_by};
ghost use Rattle.gql_request.specs.QueryEnv.{levels_of};
ghost use Rattle.gql_request.specs.declared.response.Response.{Response as OneResponse};

use crate::dynamic_request::DynamicRequest;
use crate::place_response::response_of;
use crate::schema::Schema;
use gql_base::{Items, Made, NoMemory, ServerError, Steps};
use gql_collect::Grouping;
use gql_doc::OperationType;
use gql_engine::{Scene, run_grouped, run_mutation_grouped};
use gql_request::{Data, Hooks, QueryEnv, Response};
use gql_resolve::{Layers, ResolverSet, Turns};
use gql_schema::Object;
use gql_tasks::{Rounds, Run};
use std::alloc::Global;
use std::marker::Brand;
use std::sync::ledger::{Blank, Ledger};

impl Schema {
    /// The response to a request, over a resolver set. Over a lawful set it is the response of
    /// merged execution, and the world is the one after it, whatever the turns are. A request that
    /// is refused, by the first stage that it breaks or for want of a root, has exactly the errors
    /// of that, and leaves every set and all turns as they were, as introspection-only mode does
    /// (`idle`). The rules of a set stay, and so does that it is lawful or paced (`keeps`).
    /// `NoMemory` may come of any request, also of one that would be refused; over a lawful set it
    /// tells of how many root keys of a mutation that ask an answer the effects stand. Hooks do
    /// nothing yet.
    pub fn execute<R: ResolverSet, P: Turns>(
        &self,
        alloc: Global,
        resolvers: &mut R,
        hooks: &mut Hooks,
        request: &DynamicRequest<R::Own>,
        turns: &mut P,
    ) -> Result<Response, NoMemory>
        ensures response { R.is_lawful resolvers.old → IfOk result (IsResponseTo self.now
            request.now (served_by R.ResolverSet resolvers.old)) }
        ensures world { R.is_lawful resolvers.old → LeavesWorld self.now request.now
            (served_by R.ResolverSet resolvers.old) result (R.world resolvers.new) }
        ensures refused { (refusal : OneResponse) → IsRefused self.now request.now.inner refusal
            → IfOk result (λ response. response ≡ refusal) }
        ensures untouched { (refusal : OneResponse) → IsRefused self.now request.now.inner refusal
            → (resolvers.new ≡ resolvers.old) × (turns.new ≡ turns.old) }
        ensures record { R.is_lawful resolvers.old → OnOk result (TellsAs R.ResolverSet P.Turns
            (seen resolvers.old turns.old) (seen resolvers.new turns.new)
            (asks self.now request.now) grouping.ByKey) }
        ensures stopped { IfErr result (λ want. StopsAs R.ResolverSet P.Turns
            (seen resolvers.old turns.old) (seen resolvers.new turns.new)
            (asks self.now request.now) grouping.ByKey want.roots) }
        ensures keeps { KeepsSet R.ResolverSet resolvers.old resolvers.new }
        ensures idle { is_schema_only self.now request.now.inner ≡ true
            → (resolvers.new ≡ resolvers.old) × (turns.new ≡ turns.old) }
    {
        let by = Grouping::ByKey;
        let blank = Blank::new(1);
        self.execute_on::<R, P, Brand>(alloc, by, resolvers, hooks, request, turns, blank)
    }

    /// The same response by another way: each occurrence of a field is one task, and places of one
    /// key are joined. The root keys of a mutation are one task each.
    pub fn execute_apart<R: ResolverSet, P: Turns>(
        &self,
        alloc: Global,
        resolvers: &mut R,
        hooks: &mut Hooks,
        request: &DynamicRequest<R::Own>,
        turns: &mut P,
    ) -> Result<Response, NoMemory>
        ensures response { R.is_lawful resolvers.old → IfOk result (IsResponseTo self.now
            request.now (served_by R.ResolverSet resolvers.old)) }
        ensures world { R.is_lawful resolvers.old → LeavesWorld self.now request.now
            (served_by R.ResolverSet resolvers.old) result (R.world resolvers.new) }
        ensures refused { (refusal : OneResponse) → IsRefused self.now request.now.inner refusal
            → IfOk result (λ response. response ≡ refusal) }
        ensures untouched { (refusal : OneResponse) → IsRefused self.now request.now.inner refusal
            → (resolvers.new ≡ resolvers.old) × (turns.new ≡ turns.old) }
        ensures record { R.is_lawful resolvers.old → OnOk result (TellsAs R.ResolverSet P.Turns
            (seen resolvers.old turns.old) (seen resolvers.new turns.new)
            (asks self.now request.now) grouping.Each) }
        ensures stopped { IfErr result (λ want. StopsAs R.ResolverSet P.Turns
            (seen resolvers.old turns.old) (seen resolvers.new turns.new)
            (asks self.now request.now) grouping.Each want.roots) }
        ensures keeps { KeepsSet R.ResolverSet resolvers.old resolvers.new }
        ensures idle { is_schema_only self.now request.now.inner ≡ true
            → (resolvers.new ≡ resolvers.old) × (turns.new ≡ turns.old) }
    {
        let by = Grouping::Each;
        let blank = Blank::new(1);
        self.execute_on::<R, P, Brand>(alloc, by, resolvers, hooks, request, turns, blank)
    }

    /// What `execute` does, where each start of a resolver that answered is a step: over a lawful
    /// set as many steps are taken as merged execution asks answers, and none for a request that is
    /// refused.
    pub fn execute_counted<R: ResolverSet, P: Turns, S: Ledger>(
        &self,
        alloc: Global,
        resolvers: &mut R,
        hooks: &mut Hooks,
        request: &DynamicRequest<R::Own>,
        turns: &mut P,
        steps: &mut Steps<S>,
    ) -> Result<Response, NoMemory>
        ensures response { R.is_lawful resolvers.old → IfOk result (IsResponseTo self.now
            request.now (served_by R.ResolverSet resolvers.old)) }
        ensures world { R.is_lawful resolvers.old → LeavesWorld self.now request.now
            (served_by R.ResolverSet resolvers.old) result (R.world resolvers.new) }
        ensures refused { (refusal : OneResponse) → IsRefused self.now request.now.inner refusal
            → IfOk result (λ response. response ≡ refusal) }
        ensures untouched { (refusal : OneResponse) → IsRefused self.now request.now.inner refusal
            → (resolvers.new ≡ resolvers.old) × (turns.new ≡ turns.old)
            × OnOk result (steps.new ≡ steps.old) }
        ensures record { R.is_lawful resolvers.old → OnOk result (TellsAs R.ResolverSet P.Turns
            (seen resolvers.old turns.old) (seen resolvers.new turns.new)
            (asks self.now request.now) grouping.ByKey) }
        ensures stopped { IfErr result (λ want. StopsAs R.ResolverSet P.Turns
            (seen resolvers.old turns.old) (seen resolvers.new turns.new)
            (asks self.now request.now) grouping.ByKey want.roots) }
        ensures keeps { KeepsSet R.ResolverSet resolvers.old resolvers.new }
        ensures idle { is_schema_only self.now request.now.inner ≡ true
            → (resolvers.new ≡ resolvers.old) × (turns.new ≡ turns.old) }
        ensures counted { IsCounted (R.begun resolvers.old) (R.begun resolvers.new)
            steps.old steps.new }
        ensures asked { R.is_lawful resolvers.old → OnOk result (Counts self.now request.now
            (served_by R.ResolverSet resolvers.old) steps.old steps.new) }
    {
        self.execute_by_key(alloc, resolvers, hooks, request, turns, steps)
    }

    /// What `execute` and `execute_apart` do, with steps that nobody looks at, where occurrences
    /// are grouped so.
    fn execute_on<R: ResolverSet, P: Turns, S: Ledger>(
        &self,
        alloc: Global,
        by: Grouping,
        resolvers: &mut R,
        hooks: &mut Hooks,
        request: &DynamicRequest<R::Own>,
        turns: &mut P,
        blank: Blank,
    ) -> Result<Response, NoMemory>
        requires name { blank.name ≡ S.name }
        requires parts { blank.parts ≡ S.parts }
        requires some { 0 < blank.parts }
        ensures executed { IfOk result (ExecutesAs R.ResolverSet P.Turns
            (seen resolvers.old turns.old) (seen resolvers.new turns.new)
            (asks self.now request.now) by) }
        ensures stopped { IfErr result (λ want. StopsAs R.ResolverSet P.Turns
            (seen resolvers.old turns.old) (seen resolvers.new turns.new)
            (asks self.now request.now) by want.roots) }
        ensures keeps { KeepsSet R.ResolverSet resolvers.old resolvers.new }
        ensures idle { is_schema_only self.now request.now.inner ≡ true
            → seen resolvers.new turns.new ≡ seen resolvers.old turns.old }
    {
        let mut steps: Steps<S> = Steps::new(blank);
        let mut run = Run::over(resolvers, hooks, turns, &mut steps);
        self.execute_grouped(alloc, by, request, &mut run)
    }

    /// What `execute_counted` does, by its tasks.
    fn execute_by_key<R: ResolverSet, P: Turns, S: Ledger>(
        &self,
        alloc: Global,
        resolvers: &mut R,
        hooks: &mut Hooks,
        request: &DynamicRequest<R::Own>,
        turns: &mut P,
        steps: &mut Steps<S>,
    ) -> Result<Response, NoMemory>
        ensures executed { IfOk result (ExecutesAs R.ResolverSet P.Turns
            (seen resolvers.old turns.old) (seen resolvers.new turns.new)
            (asks self.now request.now) grouping.ByKey) }
        ensures stopped { IfErr result (λ want. StopsAs R.ResolverSet P.Turns
            (seen resolvers.old turns.old) (seen resolvers.new turns.new)
            (asks self.now request.now) grouping.ByKey want.roots) }
        ensures keeps { KeepsSet R.ResolverSet resolvers.old resolvers.new }
        ensures counted { IsCounted (R.begun resolvers.old) (R.begun resolvers.new)
            steps.old steps.new }
        ensures asked { OnOk result (CountsTasks R.ResolverSet resolvers.old grouping.ByKey
            (asks self.now request.now) steps.old steps.new) }
        ensures idle { is_schema_only self.now request.now.inner ≡ true
            → seen resolvers.new turns.new ≡ seen resolvers.old turns.old }
    {
        let mut run = Run::over(resolvers, hooks, turns, steps);
        self.execute_grouped(alloc, Grouping::ByKey, request, &mut run)
    }

    /// The response to a request, where occurrences are grouped so, and each start of a resolver
    /// that answered is a step.
    #[tactic(auto, using(gql_tasks::proofs::KeepsLemmas::keeps_none))]
    fn execute_grouped<R: ResolverSet, P: Turns, S: Ledger>(
        &self,
        alloc: Global,
        by: Grouping,
        request: &DynamicRequest<R::Own>,
        run: &mut Run<'_, R, Hooks, P, S>,
    ) -> Result<Response, NoMemory>
        ensures executed { IfOk result (ExecutesAs R.ResolverSet P.Turns
            (seen_in run.old) (seen_in run.new) (asks self.now request.now) by) }
        ensures stopped { IfErr result (λ want. StopsAs R.ResolverSet P.Turns
            (seen_in run.old) (seen_in run.new) (asks self.now request.now) by want.roots) }
        ensures keeps { Keeps R.ResolverSet ⟦<Hooks as Rounds>⟧ run.old run.new }
        ensures asked { OnOk result (CountsTasks R.ResolverSet run.old.set.now by
            (asks self.now request.now) run.old.steps.now run.new.steps.now) }
        ensures idle { is_schema_only self.now request.now.inner ≡ true → run.new ≡ run.old }
    {
        match self.prepared(alloc, &request.inner)? {
            Ok(env) => match self.root_for(env.operation.node.ty) {
                Ok(object) => {
                    let session = Data::new(alloc);
                    let scene = self.scene(request, &env, object, &session);
                    respond(alloc, by, &scene, run)
                }
                Err(text) => Ok(fault(alloc, text)?),
            },
            Err(errors) => Ok(Response::from_errors(alloc, errors)),
        }
    }

    /// The scene of a request with this environment and this object at its root.
    fn scene<'a, V>(
        &'a self,
        request: &'a DynamicRequest<V>,
        env: &'a QueryEnv,
        object: &'a Object,
        session: &'a Data,
    ) -> Scene<'a, V>
        requires { session.now ≡ [] }
        ensures shows { bare_scene result
            ≡ scene_for self.entry.now request.entry.now env.entry.now object.entry.now }
        ensures serial { result.serial ≡ mutates result }
    {
        Scene {
            env,
            types: self.types(),
            object,
            query: self.settings().query.as_str(),
            entities: self.entities(request.inner.introspection_mode),
            root: &request.root_value,
            layers: Layers {
                execute: None,
                query: &request.inner.query_data,
                session,
                schema: self.schema_data(),
            },
            serial: env.operation.node.ty == OperationType::Mutation,
        }
    }
}

/// The response that tells one fault of a request, which has no place in its text.
fn fault(alloc: Global, text: &str) -> Made<Response>
    ensures { IfOk result (λ response. response ≡ fault_response text.now) }
{
    let errors = ServerError::new(alloc, text, None)?.into_list(alloc)?;
    Ok(Response::from_errors(alloc, errors))
}

/// The response of a scene whose operation agrees with itself: that of merged execution, however
/// occurrences are grouped.
fn respond<R: ResolverSet, P: Turns, S: Ledger>(
    alloc: Global,
    by: Grouping,
    scene: &Scene<'_, R::Own>,
    run: &mut Run<'_, R, Hooks, P, S>,
) -> Result<Response, NoMemory>
    requires agrees { AgreesInside scene.now (levels_of scene.now.env.now) }
    requires kind { scene.now.serial ≡ mutates scene.now }
    ensures runs { R.is_lawful run.old.set.now → IfOk result (RunsAs R.ResolverSet P.Turns
        (seen_in run.old) (seen_in run.new) by (bare_scene scene.now)) }
    ensures halts { R.is_lawful run.old.set.now → IfErr result (λ want. HaltsAs R.ResolverSet
        P.Turns (seen_in run.old) (seen_in run.new) by (bare_scene scene.now) want.roots) }
    ensures roots { mutates scene.now ≡ false → IfErr result (λ want. want.roots ≡ 0) }
    ensures keeps { Keeps R.ResolverSet ⟦<Hooks as Rounds>⟧ run.old run.new }
    ensures asked { R.is_lawful run.old.set.now → OnOk result (run.new.steps.now
        ≡ run.old.steps.now
        + tasks_by (served_by R.ResolverSet run.old.set.now) by (mutates scene.now) scene.now) }
    ensures idle { is_introspection_only scene.now.env.now.introspection_mode ≡ true
        → run.new ≡ run.old }
{
    if scene.serial {
        respond_in_turn(alloc, by, scene, run)
    } else {
        respond_at_once(alloc, by, scene, run)
    }
}

/// The same of an operation that is no mutation.
fn respond_at_once<R: ResolverSet, P: Turns, S: Ledger>(
    alloc: Global,
    by: Grouping,
    scene: &Scene<'_, R::Own>,
    run: &mut Run<'_, R, Hooks, P, S>,
) -> Result<Response, NoMemory>
    requires agrees { AgreesInside scene.now (levels_of scene.now.env.now) }
    requires kind { mutates scene.now ≡ false }
    ensures runs { R.is_lawful run.old.set.now → IfOk result (RunsAs R.ResolverSet P.Turns
        (seen_in run.old) (seen_in run.new) by (bare_scene scene.now)) }
    ensures halts { R.is_lawful run.old.set.now → IfErr result (λ want. HaltsAs R.ResolverSet
        P.Turns (seen_in run.old) (seen_in run.new) by (bare_scene scene.now) want.roots) }
    ensures roots { IfErr result (λ want. want.roots ≡ 0) }
    ensures keeps { Keeps R.ResolverSet ⟦<Hooks as Rounds>⟧ run.old run.new }
    ensures asked { R.is_lawful run.old.set.now → OnOk result (run.new.steps.now
        ≡ run.old.steps.now
        + tasks_by (served_by R.ResolverSet run.old.set.now) by (mutates scene.now) scene.now) }
    ensures idle { is_introspection_only scene.now.env.now.introspection_mode ≡ true
        → run.new ≡ run.old }
{
    let place = run_grouped(alloc, by, scene, run)?;
    match response_of(alloc, place) {
        Ok(response) => Ok(response),
        Err(_) => Err(NoMemory { roots: 0 }),
    }
}

/// The same of a mutation, whose root keys are answered one after another.
fn respond_in_turn<R: ResolverSet, P: Turns, S: Ledger>(
    alloc: Global,
    by: Grouping,
    scene: &Scene<'_, R::Own>,
    run: &mut Run<'_, R, Hooks, P, S>,
) -> Result<Response, NoMemory>
    requires agrees { AgreesInside scene.now (levels_of scene.now.env.now) }
    requires kind { mutates scene.now ≡ true }
    ensures runs { R.is_lawful run.old.set.now → IfOk result (RunsAs R.ResolverSet P.Turns
        (seen_in run.old) (seen_in run.new) by (bare_scene scene.now)) }
    ensures halts { R.is_lawful run.old.set.now → IfErr result (λ want. HaltsAs R.ResolverSet
        P.Turns (seen_in run.old) (seen_in run.new) by (bare_scene scene.now) want.roots) }
    ensures keeps { Keeps R.ResolverSet ⟦<Hooks as Rounds>⟧ run.old run.new }
    ensures asked { R.is_lawful run.old.set.now → OnOk result (run.new.steps.now
        ≡ run.old.steps.now
        + tasks_by (served_by R.ResolverSet run.old.set.now) by (mutates scene.now) scene.now) }
    ensures idle { is_introspection_only scene.now.env.now.introspection_mode ≡ true
        → run.new ≡ run.old }
{
    let (place, roots) = run_mutation_grouped(alloc, by, scene, run)?;
    match response_of(alloc, place) {
        Ok(response) => Ok(response),
        Err(_) => Err(NoMemory { roots }),
    }
}
