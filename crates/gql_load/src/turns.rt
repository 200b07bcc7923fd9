//! The turns of the bench.
ghost use Rattle.std.specs.Prelude.{◌≡◌, IfOk};
ghost use Rattle.gql_load.specs.Turns.{load_turns};

use gql_base::{Items, Made};
use std::alloc::Global;

/// A thousand numbers below 101, in steps of 37.
pub(crate) fn load_turns(alloc: Global) -> Made<Items<u64>>
    ensures { IfOk result (λ turns. turns ≡ load_turns) }
{
    let mut turns = Items::with_capacity(alloc, 1000)?;
    for place in 0..1000 {
        turns.push(37 * place % 101)?;
    }
    Ok(turns)
}
