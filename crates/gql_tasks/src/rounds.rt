//! The rounds of hooks around the call of a resolver.
ghost use Rattle.std.specs.Prelude.{◌≡◌};
ghost use Rattle.gql_resolve.specs.Record.{with_more};
ghost use Rattle.gql_tasks.specs.Turn.{GoesOn, happened};

use gql_base::{Error, Made, Value};
use gql_request::{Entered, ExtensionContext, Hooks, ResolveInfo};

/// The rounds of the hooks of a task: what the engine knows of hooks.
pub trait Rounds {
    ghost use Rattle.std.specs.Prelude.{List, Option};
    ghost use Rattle.gql_request.specs.declared.extension_context.ExtensionContext.{ExtensionContext};
    ghost use Rattle.gql_request.specs.declared.resolve_info.ResolveInfo.{ResolveInfo};

    /// What hooks tell of a round.
    ghost Event: { Type 0 };

    /// The event of the round before a task's resolver, by the data that hooks see and what they
    /// are told of the task.
    ghost entered: { ExtensionContext → ResolveInfo → Event };

    /// The events that the hooks have told, where they tell them.
    ghost told: { Self → Option (List Event) };

    /// That the hooks change no answer.
    ghost are_quiet: { Self → Type 0 };

    /// The hooks before a task's resolver is called. What they answer is put in the place of its
    /// answer: a leaf, nothing, or a fault.
    fn enter(
        &mut self,
        ctx: &ExtensionContext<'_>,
        info: &ResolveInfo<'_>,
    ) -> Made<Entered<Result<Option<Value>, Error>>>
        ensures quiet { are_quiet self.old → are_quiet self.new × GoesOn result }
        ensures told { told self.new
            ≡ with_more (told self.old) (happened result (entered ctx.now info.now)) };
}

/// The empty list of hooks, the only one so far, lets each task go on.
impl Rounds for Hooks {
    ghost use Rattle.std.specs.Prelude.{None};

    ghost Event = { Unit {0} };

    ghost entered = { λ ctx info. tt };

    ghost told = { λ hooks. None };

    ghost are_quiet = { λ hooks. Unit {0} };

    fn enter(
        &mut self,
        _ctx: &ExtensionContext<'_>,
        _info: &ResolveInfo<'_>,
    ) -> Made<Entered<Result<Option<Value>, Error>>>
        ensures { GoesOn result }
    {
        Ok(Entered::Go)
    }
}
