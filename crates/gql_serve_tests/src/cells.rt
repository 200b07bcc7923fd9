//! A set with one cell, and turns.
ghost use Rattle.std.specs.Prelude.{◌≡◌, Some, pos};
ghost use Rattle.gql_resolve.specs.Lawful.{plain_answer};
ghost use Rattle.gql_serve_tests.specs.Cells.{bumped};

use gql_base::{Items, Made, Number, Value};
use gql_resolve::{Answer, FieldFuture, FieldValue, Polled, ResolverContext, ResolverSet, Turns};
use std::alloc::Global;

/// Resolver 1 bumps the cell, as a root of a mutation, and answers what it is then. Every other
/// resolver answers the cell.
#[derive(Drop)]
pub struct Cells {
    pub cell: u64,
}

/// A resolver of this number.
#[derive(Drop)]
pub struct Reader {
    resolver: u32,
}

/// The cell after a call of a resolver.
fn bumped(resolver: u32, cell: u64) -> u64
    ensures { result ≡ bumped resolver cell }
{
    if resolver == 1 {
        cell.wrapping_add(1)
    } else {
        cell
    }
}

/// The answer that is a whole number.
pub(crate) fn number_answer(alloc: Global, number: u64) -> Answer<u64>
    ensures { result ≡ plain_answer (Some (FieldValue.Value (Value.Number (pos number)))) }
{
    Answer {
        result: Ok(Some(FieldValue::value(Value::Number(Number::from_u64(number))))),
        added: Items::new(alloc),
        headers: Items::new(alloc),
    }
}

impl ResolverSet for Cells {
    ghost use Rattle.std.specs.Prelude.{ℕ, Some, None, pos};
    ghost use Rattle.gql_base.specs.declared.value.Value.TheVariants as value;
    ghost use Rattle.gql_resolve.specs.declared.field_value.FieldValue.TheVariants as given;
    ghost use Rattle.gql_resolve.specs.Lawful.{plain_answer};
    ghost use Rattle.gql_serve_tests.specs.Cells.{bumped};

    type Own = u64;

    type World = u64;

    type Future = Reader;

    ghost Rules = { Unit {0} };

    ghost rules = { λ set. tt };

    ghost world = { λ set. set.cell };

    ghost answer = { λ rules call world. plain_answer (Some
        (given.Value (value.Number (pos (bumped call.resolver world))))) };

    ghost effect = { λ rules call world. bumped call.resolver world };

    ghost is_lawful = { λ set. Unit {0} };

    ghost is_paced = { λ set. ⊥ };

    ghost delay = { λ rules resolver. 0 };

    ghost told = { λ set. None };

    ghost begun = { λ set. None };

    ghost number = { λ future. 0 };

    ghost is_for = { λ future call. future.resolver ≡ call.resolver };

    fn start(
        &mut self,
        _alloc: Global,
        call: &ResolverContext<'_, u64>,
    ) -> Made<FieldFuture<u64, Reader>> {
        Ok(FieldFuture::new(Reader {
            resolver: call.resolver,
        }))
    }

    fn poll(
        &mut self,
        alloc: Global,
        future: &mut Reader,
        _call: &ResolverContext<'_, u64>,
    ) -> Made<Polled<u64>> {
        let number = bumped(future.resolver, self.cell);
        Ok(Polled::Ready(number_answer(alloc, number)))
    }

    fn poll_root(
        &mut self,
        alloc: Global,
        future: &mut Reader,
        _call: &ResolverContext<'_, u64>,
    ) -> Made<Polled<u64>> {
        let number = bumped(future.resolver, self.cell);
        self.cell = number;
        Ok(Polled::Ready(number_answer(alloc, number)))
    }

    fn snapshot(&self, _alloc: Global) -> Made<u64> {
        Ok(self.cell)
    }
}

/// Turns that take the last of the tasks that wait.
#[derive(Drop)]
pub struct Last;

impl Turns for Last {
    ghost use Rattle.std.specs.Prelude.{Some, ◌-◌};

    ghost State = { Unit {0} };

    ghost state = { λ turns. Some tt };

    ghost choice = { λ state n. n - 1 };

    ghost after = { λ state n. state };

    fn pick(&mut self, n: usize) -> usize {
        n - 1
    }
}
