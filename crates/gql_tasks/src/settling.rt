//! The list of tasks as it grows and as tasks get their answers.
ghost use Rattle.std.specs.Prelude.{ℕ, ◌≡◌, ◌<◌, ◌++◌, Some, length, slice_get, slice_set, OnOk};
ghost use Rattle.std.specs.Prelude.{IfOk};
ghost use Rattle.gql_tasks.specs.Record.{waiting_from, begun};
ghost use Rattle.gql_tasks.specs.Arena.{marks_of, fresh_states};

use crate::arena::{Arena, State};
use crate::waiting::Waiting;
use gql_base::Made;
use std::alloc::Global;

/// Notes that a task, which stands at a place of those that wait, has its answer, and that tasks
/// are made under it.
pub(crate) fn settle<F: Drop>(
    arena: &mut Arena<F>,
    place: usize,
    number: usize,
    count: usize,
) -> Made<()>
    requires waits { arena.old.waiting
        ≡ waiting_from 0 (slice_set (marks_of arena.old.states.items) number begun) }
    requires stands { slice_get arena.old.waiting place ≡ Some number }
    requires within { number < length arena.old.states.items }
    ensures states { OnOk result (arena.new.states.items
        ≡ slice_set arena.old.states.items number State.Done ++ fresh_states count) }
    ensures waits { OnOk result
        (arena.new.waiting ≡ waiting_from 0 (marks_of arena.new.states.items)) }
{
    arena.waiting.take(place);
    arena.states[number] = State::Done;
    make_tasks(arena, count)
}

/// Makes fresh tasks at the end.
#[tactic(auto, using(crate::proofs::ArenaLemmas::one_fresh))]
pub fn make_tasks<F: Drop>(arena: &mut Arena<F>, count: usize) -> Made<()>
    requires waits { arena.old.waiting ≡ waiting_from 0 (marks_of arena.old.states.items) }
    ensures states { OnOk result
        (arena.new.states.items ≡ arena.old.states.items ++ fresh_states count) }
    ensures waits { OnOk result
        (arena.new.waiting ≡ waiting_from 0 (marks_of arena.new.states.items)) }
{
    if count == 0 {
        return Ok(());
    }
    arena.states.reserve(count)?;
    arena.waiting.add(arena.states.len(), count)?;
    for i in 0..count {
        arena.states.push_reserved(State::Fresh);
    }
    Ok(())
}

/// The arena of as many fresh tasks.
pub fn fresh_arena<F: Drop>(alloc: Global, count: usize) -> Made<Arena<F>>
    ensures states { IfOk result (λ arena. arena.states.items ≡ fresh_states count) }
    ensures waits { IfOk result
        (λ arena. arena.waiting ≡ waiting_from 0 (marks_of arena.states.items)) }
{
    let mut arena = Arena {
        states: Vec::new(alloc),
        waiting: Waiting::new(alloc),
    };
    make_tasks(&mut arena, count)?;
    Ok(arena)
}
