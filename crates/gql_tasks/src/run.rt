//! What an execution is lent by its caller, as one value.
use crate::rounds::Rounds;
use gql_base::Steps;
use gql_resolve::{ResolverSet, Turns};
use std::sync::ledger::Ledger;

/// The resolver set, the hooks, the turns and the steps of an execution, which its caller lends.
#[derive(Drop)]
pub struct Run<'a, R: ResolverSet, H: Rounds, P: Turns, S: Ledger> {
    pub set: &'a mut R,
    pub hooks: &'a mut H,
    pub turns: &'a mut P,
    pub steps: &'a mut Steps<S>,
}

impl<'a, R: ResolverSet, H: Rounds, P: Turns, S: Ledger> Run<'a, R, H, P, S> {
    ghost use Rattle.std.specs.Prelude.{◌≡◌};

    /// A run over what is lent. Make it by this call, and not by a literal beside the call that
    /// takes it, which the borrow checker doesn't cover.
    pub fn over(
        set: &'a mut R,
        hooks: &'a mut H,
        turns: &'a mut P,
        steps: &'a mut Steps<S>,
    ) -> Run<'a, R, H, P, S>
        ensures set { result.set ≡ set.entry }
        ensures hooks { result.hooks ≡ hooks.entry }
        ensures turns { result.turns ≡ turns.entry }
        ensures steps { result.steps ≡ steps.entry }
    {
        Run {
            set,
            hooks,
            turns,
            steps,
        }
    }
}
