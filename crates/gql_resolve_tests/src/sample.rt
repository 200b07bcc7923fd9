//! Tiny turns, for tests.

use gql_resolve::Turns;

/// Turns that take the last of the tasks that wait.
#[derive(Drop)]
pub struct Last;

impl Turns for Last {
    ghost use Rattle.std.specs.Prelude.{Some, ◌-◌};

    ghost State = { Unit {0} };

    ghost state = { λ turns. Some tt };

    ghost choice = { λ state n. n - 1 };

    ghost after = { λ state n. state };

    fn pick(&mut self, n: usize) -> usize {
        n - 1
    }
}
