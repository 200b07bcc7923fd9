//! Guards of guards.
use crate::parts::Parts;
use gql_base::{Error, Made, Text};
use gql_doc::OperationType;
use gql_resolve::{And, FnGuard, Guard, GuardExt, Or, ResolverContext};
use std::alloc::Global;
use std::cell::Cell;
use std::test::Fail;

/// A guard that always passes.
#[derive(Clone, Copy)]
struct Passes;

impl Guard<u64> for Passes {
    ghost use Rattle.std.specs.Prelude.{◌≡◌, Ok};

    ghost can_check = { λ guard context. Unit {0} };

    ghost gives = { λ guard context passed. passed ≡ Ok tt };

    fn check(
        &self,
        _alloc: Global,
        _context: &ResolverContext<'_, u64>,
    ) -> Made<Result<(), Error>> {
        Ok(Ok(()))
    }
}

/// A guard that always fails, with a text.
#[derive(Clone, Copy)]
struct Fails(&'static str);

impl Guard<u64> for Fails {
    ghost use Rattle.std.specs.Prelude.{◌≡◌, Err};
    ghost use Rattle.gql_base.specs.ErrorExtensions.{bare};

    ghost can_check = { λ guard context. Unit {0} };

    ghost gives = { λ guard context passed. passed ≡ Err (bare guard.0.now) };

    fn check(&self, alloc: Global, _context: &ResolverContext<'_, u64>) -> Made<Result<(), Error>> {
        Ok(Err(Error::new(alloc, self.0)?))
    }
}

/// The error of a guard, or an empty text where it passes.
fn told<G: Guard<u64>>(alloc: Global, guard: &G, context: &ResolverContext<'_, u64>) -> Made<Text>
    requires { G.can_check guard.now context.now }
{
    match guard.check(alloc, context)? {
        Ok(()) => Text::new(alloc, ""),
        Err(error) => Ok(error.message),
    }
}

/// The error of guards of which the last one, a closure, looks at the context's task.
fn composed_told(alloc: Global, context: &ResolverContext<'_, u64>, task: u64) -> Made<Text> {
    let guard = Passes.and(Fails("x")).or(FnGuard(|context: &ResolverContext<'_, u64>| {
        if context.task == task {
            Ok(Ok(()))
        } else {
            Ok(Err(Error::new(alloc, "another task")?))
        }
    }));
    told(alloc, &guard, context)
}

/// The errors of two such guards, one after another.
fn compositions_told(alloc: Global, parts: &Parts) -> Made<Text> {
    let context = parts.context();
    let mut out = String::new(alloc);
    let third = composed_told(alloc, &context, 3)?;
    let fourth = composed_told(alloc, &context, 4)?;
    write!(out, "{third};{fourth}")?;
    Text::from_string(out)
}

#[test]
fn guards_of_guards_ask_closures(rt: HostRuntime) -> Result<(), Fail> {
    let parts = Parts::new(rt.alloc(), OperationType::Query)?;
    let told = compositions_told(rt.alloc(), &parts);
    drop(parts);
    assert!(rt; told?.as_str() == ";another task");
    Ok(())
}

/// Writes down that a guard of this number was asked, as one digit more.
fn note(asked: &Cell<u64>, number: u64) {
    asked.set(asked.get().saturating_mul(10).saturating_add(number));
}

/// A guard that writes down that it was asked, and passes or fails.
#[derive(Drop)]
struct Noted<'c> {
    asked: &'c Cell<u64>,
    number: u64,
    passes: bool,
}

impl<'c> Guard<u64> for Noted<'c> {
    ghost can_check = { λ guard context. Unit {0} };

    ghost gives = { λ guard context passed. Unit {0} };

    fn check(&self, alloc: Global, _context: &ResolverContext<'_, u64>) -> Made<Result<(), Error>> {
        note(self.asked, self.number);
        if self.passes {
            Ok(Ok(()))
        } else {
            Ok(Err(Error::new(alloc, "noted")?))
        }
    }
}

/// The guard of this number.
fn numbered(asked: &Cell<u64>, number: u64, passes: bool) -> Noted<'_> {
    Noted {
        asked,
        number,
        passes,
    }
}

/// Asks the guards 1 and 2 by `and`, where 1 passes or fails.
fn ask_both(
    alloc: Global,
    context: &ResolverContext<'_, u64>,
    asked: &Cell<u64>,
    passes: bool,
) -> Made<()> {
    let guard = numbered(asked, 1, passes).and(numbered(asked, 2, true));
    drop(guard.check(alloc, context)?);
    Ok(())
}

/// Asks the guards 1 and 2 by `or`, where 1 passes or fails.
fn ask_either(
    alloc: Global,
    context: &ResolverContext<'_, u64>,
    asked: &Cell<u64>,
    passes: bool,
) -> Made<()> {
    let guard = numbered(asked, 1, passes).or(numbered(asked, 2, true));
    drop(guard.check(alloc, context)?);
    Ok(())
}

/// Asks a closure, which is guard 3.
fn ask_closure(alloc: Global, context: &ResolverContext<'_, u64>, asked: &Cell<u64>) -> Made<()> {
    let guard = FnGuard(|_: &ResolverContext<'_, u64>| {
        note(asked, 3);
        Ok(Ok(()))
    });
    drop(guard.check(alloc, context)?);
    Ok(())
}

/// The numbers of the guards that are asked, in their order, with a 0 between: of `and` where the
/// first passes and where it fails, of `or` alike, and of a closure.
fn all_asked(alloc: Global, parts: &Parts) -> Made<Text> {
    let context = parts.context();
    let asked = Cell::new(0u64);
    ask_both(alloc, &context, &asked, true)?;
    note(&asked, 0);
    ask_both(alloc, &context, &asked, false)?;
    note(&asked, 0);
    ask_either(alloc, &context, &asked, true)?;
    note(&asked, 0);
    ask_either(alloc, &context, &asked, false)?;
    note(&asked, 0);
    ask_closure(alloc, &context, &asked)?;
    let numbers = asked.get();
    let mut out = String::new(alloc);
    write!(out, "{numbers}")?;
    Text::from_string(out)
}

#[test]
fn guards_ask_in_order_and_no_more_than_they_need(rt: HostRuntime) -> Result<(), Fail> {
    let parts = Parts::new(rt.alloc(), OperationType::Query)?;
    let asked = all_asked(rt.alloc(), &parts);
    drop(parts);
    assert!(rt; asked?.as_str() == "12010101203");
    Ok(())
}

fn is_send_sync<T: Send + Sync>() {}

#[test]
fn guards_can_be_shared() {
    is_send_sync::<And<Passes, Fails>>();
    is_send_sync::<Or<Fails, And<Passes, Passes>>>();
}
