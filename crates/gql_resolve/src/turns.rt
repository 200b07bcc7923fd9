ghost use Rattle.std.specs.Prelude.{◌≡◌, ℕ, ◌<◌, Option, option_map};
ghost use Rattle.std.specs.Option.{ForSome};

/// Which task takes the next turn. Every choice is allowed.
pub trait Turns {
    /// What the choices depend on: plain data.
    ghost State: { Type 0 };

    /// The state of these turns, where they tell it.
    ghost state: { Self → Option State };

    /// The choice of one of n tasks in a state.
    ghost choice: { State → ℕ → ℕ };

    /// The state after that choice.
    ghost after: { State → ℕ → State };

    /// The place of the task that takes this turn, among the n tasks that wait.
    fn pick(&mut self, n: usize) -> usize
        requires { 0 < n }
        ensures below { result < n }
        ensures choice { ForSome (state self.old) (λ s. result ≡ choice s n) }
        ensures after { state self.new ≡ option_map (λ s. after s n) (state self.old) };
}
