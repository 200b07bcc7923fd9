//! Merged execution of an operation that is no mutation (GraphQL, October 2021, section 6.2.1).
ghost use Rattle.std.specs.Prelude.{ℕ, ◌≡◌, [], false, IfErr, IfOk, OnErr, OnOk};
ghost use Rattle.gql_tasks.specs.Keeps.{KeepsSet};
ghost use Rattle.gql_tasks.specs.Parts.{due_by};
ghost use Rattle.gql_tasks.specs.Progress.{RunsWhole, RunStopped, seen};
ghost use Rattle.gql_resolve.specs.Call.{is_mutation};
ghost use Rattle.gql_engine.specs.ExecuteQuery.{merged_response, merged_work_whole, Nests};

use crate::execute_query::run_on_blank;
use crate::scene::Scene;
use gql_base::NoMemory;
use gql_collect::Grouping;
use gql_place::Place;
use gql_request::Hooks;
use gql_resolve::{ResolverSet, Turns};
use std::alloc::Global;
use std::marker::Brand;
use std::sync::ledger::Blank;

/// The place of the whole response of a query: each key of a set is one task, and the tasks take
/// the turns that are chosen for them. Where there is no task to begin with, nothing is asked of any
/// set and any turns.
pub fn run_merged<R: ResolverSet, P: Turns>(
    alloc: Global,
    scene: &Scene<'_, R::Own>,
    resolvers: &mut R,
    hooks: &mut Hooks,
    turns: &mut P,
) -> Result<Place, NoMemory>
    requires { is_mutation scene.now.env.now.operation.node.ty ≡ false }
    ensures places { R.is_lawful resolvers.old → (n : ℕ) → Nests scene.now n
        → IfOk result (λ place. place
        ≡ merged_response scene.now (due_by R.ResolverSet resolvers.old) n) }
    ensures keeps { KeepsSet R.ResolverSet resolvers.old resolvers.new }
    ensures world { R.is_lawful resolvers.old → R.world resolvers.new ≡ R.world resolvers.old }
    ensures record { R.is_lawful resolvers.old → OnOk result
        (RunsWhole R.ResolverSet P.Turns (merged_work_whole scene.now)
        (seen resolvers.old turns.old) (seen resolvers.new turns.new)) }
    ensures stopped { R.is_lawful resolvers.old → OnErr result
        (RunStopped R.ResolverSet P.Turns (merged_work_whole scene.now)
        (seen resolvers.old turns.old) (seen resolvers.new turns.new)) }
    ensures roots { IfErr result (λ want. want.roots ≡ 0) }
    ensures idle { (merged_work_whole scene.now).first ≡ []
        → seen resolvers.new turns.new ≡ seen resolvers.old turns.old }
{
    let by = Grouping::ByKeyWhole;
    let blank = Blank::new(1);
    let piece = run_on_blank::<R, P, Brand>(alloc, by, scene, resolvers, hooks, turns, blank)?;
    Ok(piece.into_place(alloc))
}
