//! How what a task was given is kept: the plan completes it and makes the tasks under it.
ghost use Rattle.std.specs.Prelude.{ℕ, ◌≡◌, ◌<◌, ◌++◌, Some, length, slice_get, slice_set, OnOk};
ghost use Rattle.gql_tasks.specs.Arena.{marks_of, fresh_states};
ghost use Rattle.gql_tasks.specs.Given.{beneath_given};
ghost use Rattle.gql_tasks.specs.Record.{waiting_from, begun};
ghost use Rattle.gql_tasks.specs.declared.given.Given.{Given as GivenTo};

use crate::arena::{Arena, State};
use crate::given::Given;
use crate::picking::Picked;
use crate::plan::Plan;
use crate::settling::settle;
use gql_base::Made;
use std::alloc::Global;

/// Keeps what a task was given, and notes that it has its answer and which tasks are made under
/// it.
pub(crate) fn keep_given<V, L: Plan<V>, F: Drop>(
    alloc: Global,
    plan: &mut L,
    arena: &mut Arena<F>,
    picked: Picked,
    given: Given<V>,
) -> Made<()>
    requires number { picked.number < length (L.tasks plan.old) }
    requires waits { arena.old.waiting
        ≡ waiting_from 0 (slice_set (marks_of arena.old.states.items) picked.number begun) }
    requires stands { slice_get arena.old.waiting picked.place ≡ Some picked.number }
    requires within { picked.number < length arena.old.states.items }
    ensures tasks { (task : L.Task) → slice_get (L.tasks plan.old) picked.number ≡ Some task
        → OnOk result (L.tasks plan.new ≡ L.tasks plan.old ++ beneath_given L.beneath task given) }
    ensures states { (task : L.Task) → slice_get (L.tasks plan.old) picked.number ≡ Some task
        → OnOk result (arena.new.states.items
        ≡ slice_set arena.old.states.items picked.number State.Done
        ++ fresh_states (length (beneath_given L.beneath task given))) }
    ensures waits { OnOk result
        (arena.new.waiting ≡ waiting_from 0 (marks_of arena.new.states.items)) }
    ensures holds { OnOk result (L.holds plan.new picked.number given) }
    ensures keeps { OnOk result ((other : ℕ) (g : GivenTo V) → (other ≡ picked.number → ⊥)
        → L.holds plan.old other g → L.holds plan.new other g) }
{
    let count = plan.complete(alloc, picked.number, given)?;
    settle(arena, picked.place, picked.number, count)
}
