//! The plan that the scheduler runs: the fields of an execution that ask an answer, as tasks, each
//! of which is one ExecuteField (GraphQL, October 2021, section 6.4).
ghost use Rattle.std.specs.Prelude.{ℕ, ◌≡◌, ◌≤◌, Some, length, slice_get};
ghost use Rattle.std.specs.Option.{option_copied};
ghost use Rattle.gql_tasks.specs.Plan.{alias_in};
ghost use Rattle.gql_objects.specs.Entries.{laid};
ghost use Rattle.gql_objects.specs.KeptTasks.{entries_in};
ghost use Rattle.gql_collect.specs.Groups.{united};
ghost use Rattle.gql_objects.specs.Tasks.{IsDeep, job_of_task};
ghost use Rattle.gql_objects.specs.declared.task.Task.{Task as TaskOf};

use crate::execute_field::complete_given::fill_given;
use crate::execute_field::data_answers::data_alone;
use gql_base::{Made, PathSegment};
use gql_collect::Node;
use gql_doc::Field;
use gql_input::ObjectAccessor;
use gql_objects::{
    Kept, Task, open_place, piece_alone, put_place_at, reserve_places, value_in, write_path,
};
use gql_place::Piece;
use gql_request::{QueryPathNode, ResolveInfo};
use gql_resolve::ResolverContext;
use gql_tasks::{Given, Plan};
use std::alloc::Global;
use std::mem;

/// The tasks of merged execution, what is stored of those that were given something, and the path
/// of one of them. What came to no object has its place at once, by its number; of the others there
/// is kept what they came to, in the order of answers. The first so many tasks are those of the
/// root. What was stored of the tasks below the base is given away: they are of earlier phases, and
/// of such a phase of a mutation the last of the first ones is the root key.
#[derive(Drop)]
pub struct TreePlan<'a, V> {
    pub tasks: Vec<Task<'a, V>>,
    pub kept: Vec<Kept<'a, V>>,
    pub places: Vec<Option<Piece>>,
    pub path: Vec<PathSegment>,
    pub base: usize,
    pub roots: usize,
    pub ghost laid: { laid roots (entries_in kept.items) ≡ Some (length tasks.items) },
    pub ghost deep: { (k : ℕ) (task : TaskOf V) → roots ≤ k → slice_get tasks.items k ≡ Some task
        → IsDeep (job_of_task task) },
    pub ghost within: { length places.items ≤ length tasks.items },
}

impl<'a, V: Drop> TreePlan<'a, V> {
    ghost use Rattle.std.specs.Prelude.{ℕ, ◌≡◌, ◌<◌, ◌++◌, ◌∷◌, [], Ok, None, Some, length, IfOk};
    ghost use Rattle.std.specs.Prelude.{OnOk};
    ghost use Rattle.gql_tasks.specs.declared.given.Given.TheVariants.{Put};
    ghost use Rattle.gql_objects.specs.PlaceStore.{PutsAt};
    ghost use Rattle.gql_engine.specs.PlanHolds.{HoldsSince};
    ghost use Rattle.gql_objects.specs.KeptTasks.{store_in};
    ghost use Rattle.gql_objects.specs.Tasks.{job_of_task, jobs_in};
    ghost use Rattle.gql_engine.specs.TreePlan.{HasKept};

    /// A plan without tasks.
    pub(crate) fn empty(alloc: Global) -> TreePlan<'a, V>
        ensures tasks { jobs_in result.tasks.items ≡ [] }
        ensures kept { result.kept.items ≡ [] }
    {
        TreePlan {
            tasks: Vec::new(alloc),
            kept: Vec::new(alloc),
            places: Vec::new(alloc),
            path: Vec::new(alloc),
            base: 0,
            roots: 0,
        }
    }

    /// Begins the phase of a root key of a mutation: its task stands after all others, of which
    /// nothing is kept.
    pub(crate) fn begin(&mut self, task: Task<'a, V>) -> Made<()>
        requires { self.old.kept.items ≡ [] }
        ensures tasks { OnOk result (jobs_in self.new.tasks.items
            ≡ jobs_in self.old.tasks.items ++ job_of_task task.entry ∷ []) }
        ensures held { OnOk result ((number : ℕ)
            → number < length (jobs_in self.old.tasks.items)
            → HoldsSince self.new.base (jobs_in self.new.tasks.items)
            (store_in self.new.kept.items self.new.places.items) number (Put (Ok None))) }
    {
        let base = self.tasks.len();
        self.tasks.push(task)?;
        self.base = base;
        self.roots = self.tasks.len();
        Ok(())
    }

    /// Ends a phase: what is stored of its tasks is given away.
    pub(crate) fn close(&mut self, alloc: Global) -> (Vec<Kept<'a, V>>, Vec<Option<Piece>>)
        ensures kept { result.0 ≡ self.old.kept }
        ensures places { result.1 ≡ self.old.places }
        ensures tasks { self.new.tasks ≡ self.old.tasks }
        ensures closed { self.new.kept.items ≡ [] }
    {
        self.base = self.tasks.len();
        self.roots = self.tasks.len();
        let kept = mem::replace(&mut self.kept, Vec::new(alloc));
        let places = mem::replace(&mut self.places, Vec::new(alloc));
        (kept, places)
    }

    /// Puts what is kept of the place of a task.
    fn put_piece(&mut self, number: usize, piece: Piece) -> Made<()>
        requires { number < length self.old.tasks.items }
        ensures tasks { self.new.tasks ≡ self.old.tasks }
        ensures kept { self.new.kept ≡ self.old.kept }
        ensures base { self.new.base ≡ self.old.base }
        ensures puts { OnOk result (PutsAt (Some piece) number
            self.old.places.items self.new.places.items) }
    {
        put_place_at(&mut self.places, number, piece)?;
        Ok(())
    }

    /// Keeps what a task was given, with the tasks under it.
    fn complete_given(&mut self, alloc: Global, number: usize, given: Given<V>) -> Made<usize>
        requires { number < length (jobs_in self.old.tasks.items) }
        ensures { IfOk result (λ count. HasKept self.old self.new number given count) }
    {
        let first = self.tasks.len();
        let mut more = Vec::new(alloc);
        let filled = fill_given(alloc, &self.tasks[number], given, &mut more)?;
        if filled.parents.is_empty() {
            self.put_piece(number, piece_alone(alloc, filled)?)?;
            return Ok(0);
        }
        let count = more.len();
        reserve_places(&mut self.places, first.saturating_add(count))?;
        self.kept.reserve(1)?;
        self.tasks.append(&mut more)?;
        open_place(&mut self.places, number);
        self.kept.push_reserved(Kept {
            number,
            first,
            count,
            filled,
        });
        Ok(count)
    }
}

impl<'a, V: Drop> Plan<V> for TreePlan<'a, V> {
    ghost use Rattle.std.specs.Prelude.{ℕ, ◌<◌, false, Some, List, length, slice_get, IfOk, OnOk};
    ghost use Rattle.gql_tasks.specs.Given.{beneath_given};
    ghost use Rattle.gql_tasks.specs.Plan.{HasMade};
    ghost use Rattle.gql_tasks.specs.declared.given.Given.{Given as GivenTo};
    ghost use Rattle.gql_engine.specs.PlanHolds.{HoldsSince};
    ghost use Rattle.gql_objects.specs.KeptTasks.{store_in};
    ghost use Rattle.gql_engine.specs.GivenTasks.{asked_by_job};
    ghost use Rattle.gql_objects.specs.Jobs.{Job, jobs_beneath};
    ghost use Rattle.gql_objects.specs.Tasks.{IsAimed, jobs_in};
    ghost use Rattle.gql_engine.specs.NeverRoots.{none_is_root};

    ghost Task = { Job V };

    ghost tasks = { λ plan. jobs_in plan.tasks.items };

    ghost asks = { λ task. asked_by_job task };

    ghost beneath = { λ task answer. jobs_beneath task answer };

    ghost holds = { λ plan number given.
        HoldsSince plan.base (jobs_in plan.tasks.items)
        (store_in plan.kept.items plan.places.items) number given };

    ghost aims = { λ plan number. IsAimed plan.tasks.items plan.path.items number };

    ghost never_roots = { λ task answer place below is. none_is_root task answer place below is };

    fn aim(&mut self, alloc: Global, number: usize) -> Made<()> {
        let task = &self.tasks[number];
        write_path(alloc, &task.parent.held, task.node.as_ref(), &mut self.path)
    }

    fn context<'c>(&'c self, number: usize) -> ResolverContext<'c, V> {
        let task = &self.tasks[number];
        let node = task.node.as_ref();
        let args = ObjectAccessor::new(node.asks.arguments());
        ResolverContext {
            resolver: node.asks.resolver(),
            task: number as u64,
            args,
            parent_value: value_in(&task.parent.held),
            path_node: QueryPathNode {
                segments: self.path.as_slice(),
            },
            item: item_at(node),
            env: node.basis.env,
            layers: node.basis.layers,
        }
    }

    fn info<'c>(&'c self, number: usize) -> ResolveInfo<'c> {
        let task = &self.tasks[number];
        let node = task.node.as_ref();
        let field = item_at(node);
        ResolveInfo {
            path_node: QueryPathNode {
                segments: self.path.as_slice(),
            },
            parent_type: task.parent.level.object.as_str(),
            return_type: node.asks.ty(),
            name: field.name.node.as_str(),
            alias: alias_of(field),
            field,
        }
    }

    fn complete(&mut self, alloc: Global, number: usize, given: Given<V>) -> Made<usize>
        requires { number < length (jobs_in self.old.tasks.items) }
        ensures made { (task : Job V)
            → slice_get (jobs_in self.old.tasks.items) number ≡ Some task
            → IfOk result (HasMade (jobs_in self.old.tasks.items) (jobs_in self.new.tasks.items)
            (beneath_given jobs_beneath task given)) }
        ensures holds { OnOk result (HoldsSince self.new.base (jobs_in self.new.tasks.items)
            (store_in self.new.kept.items self.new.places.items) number given) }
        ensures keeps { OnOk result ((other : ℕ) (g : GivenTo V) → (other ≡ number → ⊥)
            → HoldsSince self.old.base (jobs_in self.old.tasks.items)
            (store_in self.old.kept.items self.old.places.items) other g
            → HoldsSince self.new.base (jobs_in self.new.tasks.items)
            (store_in self.new.kept.items self.new.places.items) other g) }
    {
        match data_alone(alloc, &self.tasks[number], given) {
            Ok(value) => {
                self.put_piece(number, Piece::Data(value))?;
                Ok(0)
            }
            Err(given) => self.complete_given(alloc, number, given),
        }
    }
}

/// The field that stands for all occurrences.
fn item_at<'c, 'a>(node: &'c Node<'a>) -> &'c Field
    ensures { result.now ≡ (united node.entry.now.group).node }
{
    match &node.item {
        Some(item) => item,
        None => &node.group.first.node,
    }
}

/// The alias of a field, where it has one.
fn alias_of(field: &Field) -> Option<&str>
    ensures { option_copied result ≡ alias_in field.now }
{
    match &field.alias {
        Some(alias) => Some(alias.node.as_str()),
        None => None,
    }
}
