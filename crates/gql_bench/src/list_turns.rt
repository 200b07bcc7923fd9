//! Turns by a list of numbers.
ghost use Rattle.std.specs.Prelude.{◌≡◌, Some};

use gql_base::Items;
use gql_resolve::Turns;

/// Turns that a list tells: its next number chooses among the tasks that wait, by the remainder,
/// and where the list is used up the first of them is chosen.
#[derive(Drop)]
pub struct ListTurns {
    numbers: Items<u64>,
    place: usize,
}

impl ListTurns {
    /// The turns of a list, at its first number.
    pub fn new(numbers: Items<u64>) -> ListTurns
        ensures { ⟦<ListTurns as Turns>⟧.state result ≡ Some (numbers, 0) }
    {
        ListTurns { numbers, place: 0 }
    }
}

impl Turns for ListTurns {
    ghost use Rattle.std.specs.Prelude.{ℕ, List, Some};
    ghost use Rattle.gql_bench.specs.ListTurns.{list_choice, list_after};

    ghost State = { List ℕ × ℕ };

    ghost state = { λ turns. Some (turns.numbers, turns.place) };

    ghost choice = { list_choice };

    ghost after = { list_after };

    fn pick(&mut self, n: usize) -> usize {
        if self.place >= self.numbers.len() {
            return 0;
        }
        let number = self.numbers.as_slice()[self.place];
        self.place += 1;
        (number % n as u64) as usize
    }
}
