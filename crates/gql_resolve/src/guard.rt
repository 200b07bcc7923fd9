ghost use Rattle.std.specs.Prelude.{◌≡◌, IfOk};

use crate::resolver_context::ResolverContext;
use gql_base::{Error, Made};
use std::alloc::Global;

/// What is asked before a field is resolved: it passes, or tells why the field may not be resolved.
pub trait Guard<V> {
    ghost use Rattle.std.specs.Prelude.{IfOk, Result};
    ghost use Rattle.gql_base.specs.declared.error.Error.{Error as Refusal};
    ghost use Rattle.gql_resolve.specs.declared.resolver_context.ResolverContext.{ResolverContext as Context};

    /// The condition of a check: that this guard may be asked about a context.
    ghost can_check: { Self → Context V → Type 0 };

    /// That this guard may answer so about a context.
    ghost gives: { Self → Context V → Result (Unit {0}) Refusal → Type 0 };

    /// Passes, or tells why not.
    fn check(&self, alloc: Global, context: &ResolverContext<'_, V>) -> Made<Result<(), Error>>
        requires { can_check self.now context.now }
        ensures { IfOk result (λ passed. gives self.now context.now passed) };
}

/// Guards of two guards.
pub trait GuardExt<V>: Guard<V> + Sized {
    ghost use Rattle.std.specs.Prelude.{◌≡◌};

    /// The guard that passes exactly where both pass, and else has the error of the first that
    /// fails. The other is asked after this one, where this one passes.
    final fn and<R: Guard<V>>(self, other: R) -> And<Self, R>
        ensures { (result.0 ≡ self) × (result.1 ≡ other) }
    {
        And(self, other)
    }

    /// The guard that passes exactly where one of both passes, and else has the error of the other
    /// guard. The other is asked after this one, where this one fails.
    final fn or<R: Guard<V>>(self, other: R) -> Or<Self, R>
        ensures { (result.0 ≡ self) × (result.1 ≡ other) }
    {
        Or(self, other)
    }
}

impl<V, T: Guard<V>> GuardExt<V> for T {}

/// The guard that `and` makes of a first and a second one.
#[derive(Drop)]
pub struct And<A, B>(pub A, pub B);

impl<V, A: Guard<V>, B: Guard<V>> Guard<V> for And<A, B> {
    ghost use Rattle.gql_resolve.specs.Guard.{GivesBoth};

    ghost can_check = { λ both context. A.can_check both.0 context × B.can_check both.1 context };

    ghost gives = { λ both context passed.
        GivesBoth (A.gives both.0 context) (B.gives both.1 context) passed };

    fn check(&self, alloc: Global, context: &ResolverContext<'_, V>) -> Made<Result<(), Error>> {
        match self.0.check(alloc, context)? {
            Ok(()) => self.1.check(alloc, context),
            Err(error) => Ok(Err(error)),
        }
    }
}

/// The guard that `or` makes of a first and a second one.
#[derive(Drop)]
pub struct Or<A, B>(pub A, pub B);

impl<V, A: Guard<V>, B: Guard<V>> Guard<V> for Or<A, B> {
    ghost use Rattle.gql_resolve.specs.Guard.{GivesEither};

    ghost can_check = { λ either context. A.can_check either.0 context × B.can_check either.1 context };

    ghost gives = { λ either context passed.
        GivesEither (A.gives either.0 context) (B.gives either.1 context) passed };

    fn check(&self, alloc: Global, context: &ResolverContext<'_, V>) -> Made<Result<(), Error>> {
        match self.0.check(alloc, context)? {
            Ok(()) => Ok(Ok(())),
            Err(_) => self.1.check(alloc, context),
        }
    }
}

/// A guard that asks a closure once.
#[derive(Drop)]
pub struct FnGuard<F>(pub F);

impl<V, F: Fn(&ResolverContext<'_, V>) -> Made<Result<(), Error>>> Guard<V> for FnGuard<F> {
    ghost use Rattle.std.specs.Prelude.{◌≡◌, Ok};
    ghost use Rattle.std.specs.Borrow.{Bor};
    ghost use Rattle.gql_resolve.specs.declared.resolver_context.ResolverContext.{ResolverContext as Context};

    ghost can_check = { λ guard context. (seen : Bor (Context V)) → seen.now ≡ context
        → F.pre guard.0 seen };

    ghost gives = { λ guard context passed. (seen : Bor (Context V)) × (seen.now ≡ context)
        × F.post guard.0 seen (Ok passed) };

    fn check(&self, _alloc: Global, context: &ResolverContext<'_, V>) -> Made<Result<(), Error>> {
        (self.0)(context)
    }
}
