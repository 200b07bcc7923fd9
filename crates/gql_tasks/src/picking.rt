//! Which of the waiting tasks takes a turn.
ghost use Rattle.std.specs.Prelude.{◌≡◌, ◌<◌, Some, length, slice_get, option_map};
ghost use Rattle.std.specs.Option.{ForSome};

use crate::arena::Arena;
use gql_resolve::Turns;

/// The task that takes a turn: its place among those that wait, and its number.
#[derive(Clone, Copy)]
pub(crate) struct Picked {
    pub place: usize,
    pub number: usize,
}

/// Picks the task that the turns choose among those that wait.
pub(crate) fn pick_task<F, P: Turns>(arena: &Arena<F>, turns: &mut P) -> Picked
    requires { 0 < length arena.now.waiting }
    ensures stands { slice_get arena.now.waiting result.place ≡ Some result.number }
    ensures choice { ForSome (P.state turns.old)
        (λ s. result.place ≡ P.choice s (length arena.now.waiting)) }
    ensures after { P.state turns.new
        ≡ option_map (λ s. P.after s (length arena.now.waiting)) (P.state turns.old) }
{
    let place = turns.pick(arena.waiting.len());
    Picked {
        place,
        number: arena.waiting.at(place),
    }
}
