//! The execution of a mutation (GraphQL, October 2021, section 6.2.2).
ghost use Rattle.std.specs.Prelude.{ℕ, ◌≡◌, ◌+◌, ◌∷◌, [], true, length, map};
ghost use Rattle.std.specs.Prelude.{IfOk, IfErr, OnOk, OnErr};
ghost use Rattle.gql_tasks.specs.Keeps.{Keeps};
ghost use Rattle.gql_tasks.specs.Phases.{HaltsInTurn, RootsStand, RunsInTurn};
ghost use Rattle.gql_tasks.specs.Progress.{seen_in};
ghost use Rattle.gql_tasks.specs.Rounds.{RoundsOf};
ghost use Rattle.gql_meaning.specs.Responses.{root_place};
ghost use Rattle.gql_resolve.specs.Call.{is_mutation};
ghost use Rattle.gql_place.specs.Alike.{Same};
ghost use Rattle.gql_place.specs.Pieces.{place_in};
ghost use Rattle.gql_objects.specs.Members.{members_with};
ghost use Rattle.gql_objects.specs.Assembly.{AreApart};
ghost use Rattle.gql_engine.specs.TaskCounts.{serial_count_by};
ghost use Rattle.gql_collect.specs.GroupFields.{keeps_whole};
ghost use Rattle.gql_engine.specs.GivenTasks.{asked_by_job};
ghost use Rattle.gql_objects.specs.Parents.{standing_behind};
ghost use Rattle.gql_engine.specs.ExecuteQuery.{Nests};
ghost use Rattle.gql_engine.specs.ExecuteMutation.{key_work_by, last_world_of, no_jobs, serial_response_by};
ghost use Rattle.gql_objects.specs.PlaceStore.{present};

use crate::execute_field::tree_plan::TreePlan;
use crate::execute_query::{root_of, root_piece};
use crate::root_keys::answer_keys;
use crate::scene::Scene;
use gql_base::{NoMemory, Pos};
use gql_collect::Grouping;
use gql_objects::{Parent, make_tasks};
use gql_place::Piece;
use gql_resolve::{ResolverSet, Turns};
use gql_tasks::{Rounds, Run, fresh_arena};
use std::alloc::Global;
use std::collections::VecDeque;
use std::rc::Rc;
use std::sync::ledger::Ledger;

/// What is kept of the place of the whole response of a mutation, and the number of its root keys
/// that asked an answer: whoever goes on from there can tell which effects stand. Each root key,
/// merged over its occurrences, is answered alone, with its effect on the world, and then all
/// under it in the world that it leaves, where each group of occurrences is one task; the next
/// one goes on from there, also after a failure. Want of memory tells how many root keys have their
/// effect. Where no root key asks an answer, nothing is asked of any set and any turns.
#[tactic(auto, using(gql_tasks::proofs::KeepsLemmas::keeps_none))]
pub fn run_mutation_grouped<R: ResolverSet, H: Rounds, P: Turns, S: Ledger>(
    alloc: Global,
    by: Grouping,
    scene: &Scene<'_, R::Own>,
    run: &mut Run<'_, R, H, P, S>,
) -> Result<(Piece, u64), NoMemory>
    requires { is_mutation scene.now.env.now.operation.node.ty ≡ true }
    ensures places { R.is_lawful run.old.set.now → H.are_quiet run.old.hooks.now → (n : ℕ)
        → Nests scene.now n → IfOk result (λ ran. Same (keeps_whole by) (place_in ran.0)
        (serial_response_by scene.now (R.answer (R.rules run.old.set.now))
        (R.effect (R.rules run.old.set.now)) by (R.world run.old.set.now) n)) }
    ensures count { IfOk result (λ ran. ran.1 ≡ length (key_work_by by scene.now).first) }
    ensures keeps { Keeps R.ResolverSet H.Rounds run.old run.new }
    ensures world { R.is_lawful run.old.set.now → H.are_quiet run.old.hooks.now → OnOk result
        (R.world run.new.set.now ≡ last_world_of scene.now (R.effect (R.rules run.old.set.now))
        (R.world run.old.set.now)) }
    ensures record { R.is_lawful run.old.set.now → H.are_quiet run.old.hooks.now → OnOk result
        (RunsInTurn R.ResolverSet P.Turns (key_work_by by scene.now)
        (seen_in run.old) (seen_in run.new)) }
    ensures stopped { R.is_lawful run.old.set.now → H.are_quiet run.old.hooks.now → OnErr result
        (HaltsInTurn R.ResolverSet P.Turns (key_work_by by scene.now)
        (seen_in run.old) (seen_in run.new)) }
    ensures roots { R.is_lawful run.old.set.now → H.are_quiet run.old.hooks.now
        → IfErr result (λ want. RootsStand R.ResolverSet P.Turns (key_work_by by scene.now)
        (seen_in run.old) (seen_in run.new) want.roots) }
    ensures rounds { RoundsOf asked_by_job H.Rounds
        (no_jobs scene.now) run.old.hooks.now run.new.hooks.now result }
    ensures idle { (key_work_by by scene.now).first ≡ [] → run.new ≡ run.old }
    ensures asked { R.is_lawful run.old.set.now → H.are_quiet run.old.hooks.now → (n : ℕ)
        → Nests scene.now n → OnOk result (run.new.steps.now ≡ run.old.steps.now
        + serial_count_by scene.now (R.answer (R.rules run.old.set.now))
        (R.effect (R.rules run.old.set.now)) (R.world run.old.set.now) n by) }
{
    let root = root_of(alloc, by, scene)?;
    let mut tasks = Vec::new(alloc);
    make_tasks(&root, &mut tasks)?;
    let mut plan = TreePlan::empty(alloc);
    let mut arena = fresh_arena(alloc, 0)?;
    let keys = VecDeque::from_vec(tasks);
    let own = answer_keys(alloc, keys, &mut plan, &mut arena, run)?;
    let pos = scene.env.operation.pos;
    place_of_keys(alloc, pos, &root, by.keeps_whole(), own)
}

/// What is kept of the place of the root, of the places of its keys, and their number.
fn place_of_keys<'a, V: Drop>(
    alloc: Global,
    pos: Pos,
    root: &Rc<Parent<'a, V>>,
    whole: bool,
    own: Vec<Option<Piece>>,
) -> Result<(Piece, u64), NoMemory>
    ensures place { AreApart whole (standing_behind root.entry.now ∷ []) → IfOk result (λ run.
        Same whole (place_in run.0) (root_place pos
        (members_with (standing_behind root.entry.now).spot.object
        (standing_behind root.entry.now).members (map place_in (present own.items))))) }
    ensures count { IfOk result (λ run. run.1 ≡ length own.items) }
    ensures roots { IfErr result (λ want. want.roots ≡ length own.items) }
{
    let roots = own.len() as u64;
    let mut own = VecDeque::from_vec(own);
    match root_piece(alloc, pos, root, whole, &mut own) {
        Ok(piece) => Ok((piece, roots)),
        Err(_) => Err(NoMemory { roots }),
    }
}
