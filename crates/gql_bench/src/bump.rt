//! The rule `bump`: a root of a mutation raises a cell by its argument `by`.
ghost use Rattle.std.specs.Prelude.{◌≡◌, Some, IfOk};
ghost use Rattle.std.specs.Option.{option_copied};
ghost use Rattle.gql_resolve.specs.Call.{call_of, is_mutation};
ghost use Rattle.gql_bench.specs.Bump.{bump_outcome, bumped, cell_told, raise_by, raise_of};
ghost use Rattle.gql_bench.specs.Bump.{raised};

use crate::sum::{Outcome, signed, told};
use gql_base::{Made, Pairs, Value};
use gql_doc::OperationType;
use gql_resolve::ResolverContext;
use std::alloc::Global;

/// Whether a call is for a root of a mutation.
pub(crate) fn is_root(call: &ResolverContext<'_, i64>) -> bool
    ensures { result ≡ (call_of call.now).is_root }
{
    is_mutation(call.env.operation.node.ty) && call.path_node.segments.len() == 1
}

/// Whether operations of a kind are mutations.
fn is_mutation(ty: OperationType) -> bool
    ensures { result ≡ is_mutation ty }
{
    match ty {
        OperationType::Mutation => true,
        OperationType::Query | OperationType::Subscription => false,
    }
}

/// What these arguments give as they raise a cell.
pub(crate) fn bump_of(alloc: Global, arguments: &Pairs<Value>, cell: i64) -> Made<Outcome>
    ensures { IfOk result (λ outcome. outcome ≡ bump_outcome arguments.now cell) }
{
    told(alloc, total_of(arguments, cell))
}

/// The cell after that. Where it would be no whole number of 64 bits with a sign, it stays.
pub(crate) fn bumped(arguments: &Pairs<Value>, cell: i64) -> i64
    ensures { result ≡ bumped arguments.now cell }
{
    match total_of(arguments, cell) {
        Some(total) => within(total, cell),
        None => cell,
    }
}

/// A total, where it is such a number, else another one.
fn within(total: i128, other: i64) -> i64
    ensures { result ≡ cell_told other (Some total) }
{
    match i64::try_from(total) {
        Ok(number) => number,
        Err(_) => other,
    }
}

/// What a cell comes to as these arguments raise it.
fn total_of(arguments: &Pairs<Value>, cell: i64) -> Option<i128>
    ensures { result ≡ raised arguments.now cell }
{
    match raise_by(arguments.get("by")) {
        Some(number) => Some(i128::from(cell) + i128::from(number)),
        None => None,
    }
}

/// By how much an argument raises.
fn raise_by(argument: Option<&Value>) -> Option<i64>
    ensures { result ≡ raise_by (option_copied argument.entry) }
{
    match argument {
        Some(value) => raise_of(value),
        None => Some(1),
    }
}

/// By how much a value raises.
fn raise_of(value: &Value) -> Option<i64>
    ensures { result ≡ raise_of value.now }
{
    match value {
        Value::Null => Some(1),
        _ => signed(value),
    }
}
