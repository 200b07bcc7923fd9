//! The execution of an operation that is no mutation (GraphQL, October 2021, section 6.2.1),
//! whatever its occurrences are grouped by.
ghost use Rattle.std.specs.Prelude.{ℕ, ◌≡◌, ◌+◌, ◌<◌, ◌∷◌, [], false, map, take};
ghost use Rattle.std.specs.Prelude.{IfOk, IfErr, OnErr, OnOk};
ghost use Rattle.gql_objects.specs.PlaceStore.{present};
ghost use Rattle.gql_tasks.specs.Parts.{due_by};
ghost use Rattle.gql_tasks.specs.Keeps.{Keeps, KeepsSet};
ghost use Rattle.gql_tasks.specs.Progress.{RunsWhole, RunStopped, seen, seen_in};
ghost use Rattle.gql_tasks.specs.Rounds.{RoundsOf};
ghost use Rattle.gql_meaning.specs.Responses.{root_place};
ghost use Rattle.gql_place.specs.Alike.{Same};
ghost use Rattle.gql_place.specs.Pieces.{members_in, place_in};
ghost use Rattle.gql_resolve.specs.Call.{Call, is_mutation};
ghost use Rattle.gql_resolve.specs.declared.answer.Answer.{Answer};
ghost use Rattle.gql_objects.specs.Members.{members_with};
ghost use Rattle.gql_objects.specs.Assembly.{AllHeld, AreApart, IsAssembled};
ghost use Rattle.gql_engine.specs.TaskCounts.{count_by};
ghost use Rattle.gql_collect.specs.GroupFields.{grouping_at, keeps_whole};
ghost use Rattle.gql_objects.specs.KeptTasks.{store_in};
ghost use Rattle.gql_engine.specs.GivenTasks.{asked_by_job};
ghost use Rattle.gql_collect.specs.Levels.{asked_in_as, members_of};
ghost use Rattle.gql_objects.specs.Parents.{jobs_here, standing_at_as, standing_behind};
ghost use Rattle.gql_engine.specs.ExecuteQuery.{basis_by, Nests, own_jobs_by, response_by, root_jobs_by};
ghost use Rattle.gql_engine.specs.ExecuteQuery.{root_selections, root_spot, work_by};
ghost use Rattle.gql_objects.specs.Tasks.{jobs_in};

use crate::execute_field::tree_plan::TreePlan;
use crate::scene::Scene;
use gql_base::{Items, Made, NoMemory, Pos, Steps};
use gql_collect::{Basis, Grouping, Level, fields_in, level_of};
use gql_doc::OperationType;
use gql_objects::{Held, Parent, add_open, assemble, make_tasks, members_at};
use gql_place::{MemberPieces, Piece, Place};
use gql_request::Hooks;
use gql_resolve::{ResolverSet, Turns};
use gql_tasks::{Rounds, Run, finish, fresh_arena};
use std::alloc::Global;
use std::collections::VecDeque;
use std::rc::Rc;
use std::sync::ledger::{Blank, Ledger};

/// What is kept of the place of the whole response of a query: each group of occurrences is one
/// task, and the tasks take the turns that are chosen for them. Each start of a resolver that
/// answered is a step, so that as many steps are taken as answers are asked. The hooks of each task
/// are entered once, before its resolver is started. Where there is no task to begin with, nothing
/// is asked of any set and any turns.
#[tactic(auto, using(gql_tasks::proofs::KeepsLemmas::keeps_none))]
pub fn run_grouped<R: ResolverSet, H: Rounds, P: Turns, S: Ledger>(
    alloc: Global,
    by: Grouping,
    scene: &Scene<'_, R::Own>,
    run: &mut Run<'_, R, H, P, S>,
) -> Result<Piece, NoMemory>
    requires { is_mutation scene.now.env.now.operation.node.ty ≡ false }
    ensures places { R.is_lawful run.old.set.now → H.are_quiet run.old.hooks.now → (n : ℕ)
        → Nests scene.now n → IfOk result (λ piece. Same (keeps_whole by) (place_in piece)
        (response_by by scene.now (due_by R.ResolverSet run.old.set.now) n)) }
    ensures keeps { Keeps R.ResolverSet H.Rounds run.old run.new }
    ensures world { R.is_lawful run.old.set.now
        → R.world run.new.set.now ≡ R.world run.old.set.now }
    ensures record { R.is_lawful run.old.set.now → H.are_quiet run.old.hooks.now → OnOk result
        (RunsWhole R.ResolverSet P.Turns (work_by by scene.now) (seen_in run.old)
        (seen_in run.new)) }
    ensures stopped { R.is_lawful run.old.set.now → H.are_quiet run.old.hooks.now → OnErr result
        (RunStopped R.ResolverSet P.Turns (work_by by scene.now) (seen_in run.old)
        (seen_in run.new)) }
    ensures roots { IfErr result (λ want. want.roots ≡ 0) }
    ensures rounds { RoundsOf asked_by_job H.Rounds
        (root_jobs_by by scene.now) run.old.hooks.now run.new.hooks.now result }
    ensures idle { (work_by by scene.now).first ≡ [] → run.new ≡ run.old }
    ensures asked { R.is_lawful run.old.set.now → H.are_quiet run.old.hooks.now → (n : ℕ)
        → Nests scene.now n → OnOk result (run.new.steps.now ≡ run.old.steps.now
        + count_by scene.now (due_by R.ResolverSet run.old.set.now) n by) }
{
    let root = root_of(alloc, by, scene)?;
    let mut plan = plan_of(alloc, &root)?;
    let mut arena = fresh_arena(alloc, plan.tasks.len())?;
    finish(alloc, &mut plan, &mut arena, run)?;
    let whole = by.keeps_whole();
    Ok(place_of_root(alloc, scene.env.operation.pos, &root, whole, plan)?)
}

/// The same with the hooks of a request, and with steps that nobody looks at.
pub(crate) fn run_on_blank<R: ResolverSet, P: Turns, S: Ledger>(
    alloc: Global,
    by: Grouping,
    scene: &Scene<'_, R::Own>,
    resolvers: &mut R,
    hooks: &mut Hooks,
    turns: &mut P,
    blank: Blank,
) -> Result<Piece, NoMemory>
    requires query { is_mutation scene.now.env.now.operation.node.ty ≡ false }
    requires name { blank.name ≡ S.name }
    requires parts { blank.parts ≡ S.parts }
    requires some { 0 < blank.parts }
    ensures places { R.is_lawful resolvers.old → (n : ℕ) → Nests scene.now n
        → IfOk result (λ piece. Same (keeps_whole by) (place_in piece)
        (response_by by scene.now (due_by R.ResolverSet resolvers.old) n)) }
    ensures keeps { KeepsSet R.ResolverSet resolvers.old resolvers.new }
    ensures world { R.is_lawful resolvers.old → R.world resolvers.new ≡ R.world resolvers.old }
    ensures record { R.is_lawful resolvers.old → OnOk result
        (RunsWhole R.ResolverSet P.Turns (work_by by scene.now)
        (seen resolvers.old turns.old) (seen resolvers.new turns.new)) }
    ensures stopped { R.is_lawful resolvers.old → OnErr result
        (RunStopped R.ResolverSet P.Turns (work_by by scene.now)
        (seen resolvers.old turns.old) (seen resolvers.new turns.new)) }
    ensures roots { IfErr result (λ want. want.roots ≡ 0) }
    ensures idle { (work_by by scene.now).first ≡ []
        → seen resolvers.new turns.new ≡ seen resolvers.old turns.old }
{
    let mut steps: Steps<S> = Steps::new(blank);
    run_grouped(
        alloc,
        by,
        scene,
        &mut Run::over(resolvers, hooks, turns, &mut steps),
    )
}

/// The object at the root with its fields.
pub(crate) fn root_of<'a, V: Drop>(
    alloc: Global,
    by: Grouping,
    scene: &Scene<'a, V>,
) -> Made<Rc<Parent<'a, V>>>
    ensures stands { IfOk result (λ root. standing_behind root
        ≡ standing_at_as (is_mutation scene.entry.now.env.now.operation.node.ty)
        (basis_by by scene.entry.now) (root_selections scene.entry.now)
        (root_spot scene.entry.now)) }
    ensures jobs { IfOk result (λ root. jobs_here root.value ≡ own_jobs_by by scene.entry.now) }
{
    let level = Rc::new(alloc, root_level(alloc, by, scene)?)?;
    let root = Rc::new(
        alloc,
        Parent {
            level,
            held: Held::Root(scene.root),
        },
    )?;
    Ok(root)
}

/// The fields of the root.
fn root_level<'a, V>(alloc: Global, by: Grouping, scene: &Scene<'a, V>) -> Made<Level<'a>>
    ensures object { IfOk result (λ level. level.object ≡ (root_spot scene.entry.now).object) }
    ensures members { IfOk result (λ level. members_of level
        ≡ asked_in_as (is_mutation scene.entry.now.env.now.operation.node.ty)
        (basis_by by scene.entry.now) (root_spot scene.entry.now).object
        (root_selections scene.entry.now)) }
{
    let basis = Basis {
        env: scene.env,
        types: scene.types,
        query: scene.query,
        entities: scene.entities,
        layers: scene.layers,
        grouping: by,
    };
    let object = scene.object.type_name();
    let selections = scene.env.operation.node.selection_set.node.items.as_slice();
    let fields = fields_in(alloc, &basis, object, selections)?;
    let own = grouping_for(scene.env.operation.node.ty, by);
    level_of(alloc, &basis, own, object, fields)
}

/// How the root's occurrences are grouped: those of a mutation by their keys.
fn grouping_for(ty: OperationType, by: Grouping) -> Grouping
    ensures { result ≡ grouping_at (is_mutation ty) by }
{
    match ty {
        OperationType::Query => by,
        OperationType::Mutation => Grouping::ByKey,
        OperationType::Subscription => by,
    }
}

/// The plan that begins with the tasks of the root.
#[tactic(auto, using(crate::proofs::QueryLemmas::none_deep))]
fn plan_of<'a, V: Drop>(alloc: Global, root: &Rc<Parent<'a, V>>) -> Made<TreePlan<'a, V>>
    ensures { IfOk result (λ plan. jobs_in plan.tasks.items ≡ jobs_here root.entry.now.value) }
{
    let mut tasks = Vec::new(alloc);
    make_tasks(root, &mut tasks)?;
    let roots = tasks.len();
    Ok(TreePlan {
        tasks,
        kept: Vec::new(alloc),
        places: Vec::new(alloc),
        path: Vec::new(alloc),
        base: 0,
        roots,
    })
}

/// What is kept of the place of the root, of what is stored of all tasks.
fn place_of_root<'a, V: Drop>(
    alloc: Global,
    pos: Pos,
    root: &Rc<Parent<'a, V>>,
    whole: bool,
    plan: TreePlan<'a, V>,
) -> Made<Piece>
    ensures { (answer : Call V → Answer V)
        → AllHeld answer (jobs_in plan.entry.tasks.items)
        (store_in plan.entry.kept.items plan.entry.places.items)
        → AreApart whole (standing_behind root.entry.now ∷ [])
        → IfOk result (IsAssembled answer whole pos (standing_behind root.entry.now)
        (take plan.entry.roots (jobs_in plan.entry.tasks.items))) }
{
    let TreePlan {
        tasks,
        kept,
        places,
        path: _,
        base: _,
        roots,
    } = plan;
    let count = tasks.len();
    // What tasks hold of their objects is free before the places are put together.
    drop(tasks);
    let mut places = places;
    add_open(&mut places, count)?;
    assemble(alloc, kept, roots, &mut places)?;
    let mut own = VecDeque::from_vec(places);
    root_piece(alloc, pos, root, whole, &mut own)
}

/// What is kept of the place of the root, of the places of its tasks.
pub(crate) fn root_piece<'a, V: Drop>(
    alloc: Global,
    pos: Pos,
    root: &Rc<Parent<'a, V>>,
    whole: bool,
    own: &mut VecDeque<Option<Piece>>,
) -> Made<Piece>
    ensures { AreApart whole (standing_behind root.entry.now ∷ []) → IfOk result (λ piece.
        Same whole (place_in piece) (root_place pos
        (members_with (standing_behind root.entry.now).spot.object
        (standing_behind root.entry.now).members (map place_in (present own.old.items))))) }
{
    let members = members_at(alloc, root.level.as_ref(), whole, own)?;
    root_with(alloc, pos, whole, members)
}

/// What is kept of the place of the root with these members.
fn root_with(alloc: Global, pos: Pos, whole: bool, members: MemberPieces) -> Made<Piece>
    ensures { IfOk result (λ piece.
        Same whole (place_in piece) (root_place pos (members_in members))) }
{
    let tree = members.into_object(alloc, whole)?;
    let place = Place {
        pos,
        non_null: false,
        added: Items::new(alloc),
        headers: Items::new(alloc),
        tree,
    };
    Piece::new(alloc, whole, place)
}
