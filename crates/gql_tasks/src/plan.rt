//! What the scheduler knows of what it executes: a growing list of tasks, each of which is one
//! ExecuteField (GraphQL, October 2021, section 6.4).
ghost use Rattle.std.specs.Prelude.{ℕ, false, ◌≡◌, ◌<◌, List, Some, length, slice_get, OnOk, IfOk};
ghost use Rattle.gql_resolve.specs.declared.answer.Answer.{Answer};
ghost use Rattle.gql_tasks.specs.Given.{beneath_given};
ghost use Rattle.gql_tasks.specs.Plan.{Asking, HasMade, IsContextOf, IsInfoOf};
ghost use Rattle.gql_tasks.specs.declared.given.Given.{Given};

use crate::given::Given;
use gql_base::Made;
use gql_request::ResolveInfo;
use gql_resolve::ResolverContext;
use std::alloc::Global;

/// A growing list of tasks: what each asks, and what its answer makes under. The engine knows
/// nothing else of GraphQL.
pub trait Plan<V> {
    ghost Task: { Type 0 };

    /// The tasks that are made so far, by their numbers.
    ghost tasks: { Self → List Task };

    /// What a task asks.
    ghost asks: { Task → Asking V };

    /// The tasks that an answer makes under a task.
    ghost beneath: { Task → Answer V → List Task };

    /// What is kept of what the task of a number was given.
    ghost holds: { Self → ℕ → Given V → Type 0 };

    /// That the path is the one of the task of a number. A plan has one path, and not one for each
    /// task.
    ghost aims: { Self → ℕ → Type 0 };

    /// Aims the path at a task. The tasks and what is kept of them stay, also where memory is
    /// wanting.
    fn aim(&mut self, alloc: Global, number: usize) -> Made<()>
        requires { number < length (tasks self.old) }
        ensures stays { tasks self.new ≡ tasks self.old }
        ensures keeps { (n : ℕ) (g : Given V) → holds self.old n g → holds self.new n g }
        ensures aimed { OnOk result (aims self.new number) };

    /// The context of the call of the task at which the path is aimed.
    fn context<'a>(&'a self, number: usize) -> ResolverContext<'a, V>
        requires within { number < length (tasks self.now) }
        requires aimed { aims self.now number }
        ensures { (task : Task) → slice_get (tasks self.now) number ≡ Some task
            → IsContextOf number (asks task) result };

    /// What hooks are told of the task at which the path is aimed.
    fn info<'a>(&'a self, number: usize) -> ResolveInfo<'a>
        requires within { number < length (tasks self.now) }
        requires aimed { aims self.now number }
        ensures { (task : Task) → slice_get (tasks self.now) number ≡ Some task
            → IsInfoOf (asks task) result };

    /// Keeps what a task was given, makes the tasks under, and tells their number.
    fn complete(&mut self, alloc: Global, number: usize, given: Given<V>) -> Made<usize>
        requires { number < length (tasks self.old) }
        ensures made { (task : Task) → slice_get (tasks self.old) number ≡ Some task
            → IfOk result (HasMade (tasks self.old) (tasks self.new)
            (beneath_given beneath task given)) }
        ensures holds { OnOk result (holds self.new number given) }
        ensures keeps { OnOk result ((other : ℕ) (g : Given V) → (other ≡ number → ⊥)
            → holds self.old other g → holds self.new other g) };

    /// What is under an answer is no root of a mutation.
    ghost never_roots: { (task : Task) (answer : Answer V) (place : ℕ) (below : Task)
        → slice_get (beneath task answer) place ≡ Some below → (asks below).call.is_root ≡ false };
}
