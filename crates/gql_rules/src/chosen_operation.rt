//! The operation that a request runs, read and not taken (section 6.1).
ghost use Rattle.std.specs.Prelude.{◌≡◌};
ghost use Rattle.std.specs.Option.{option_copied, option_map};
ghost use Rattle.gql_base.specs.Pairs.{under};
ghost use Rattle.gql_rules.specs.ChosenOperation.{chosen, named, only, operation_of};

use gql_base::Pairs;
use gql_doc::{DocumentOperations, OperationDefinition, Positioned};

/// The operation that a request runs, where it can be chosen.
pub fn chosen_in<'a>(
    operations: &'a DocumentOperations,
    name: Option<&str>,
) -> Option<&'a Positioned<OperationDefinition>>
    ensures { option_copied result
        ≡ option_map operation_of (chosen operations.now (option_copied name.entry)) }
{
    match operations {
        DocumentOperations::Single(operation) => match name {
            None => Some(operation),
            Some(_) => None,
        },
        DocumentOperations::Multiple(operations) => match name {
            None => only_in(operations),
            Some(name) => named_in(operations, name),
        },
    }
}

/// The only one of some operations.
#[tactic(auto, using(crate::proofs::ChosenLemmas::only_or_none))]
fn only_in(
    operations: &Pairs<Positioned<OperationDefinition>>,
) -> Option<&Positioned<OperationDefinition>>
    ensures { option_copied result ≡ option_map operation_of (only operations.now) }
{
    if operations.len() == 1 {
        let (_, operation) = operations.at(0);
        Some(operation)
    } else {
        None
    }
}

/// The operation of a name.
#[tactic(auto, using(crate::proofs::ChosenLemmas::operation_named))]
fn named_in<'a>(
    operations: &'a Pairs<Positioned<OperationDefinition>>,
    name: &str,
) -> Option<&'a Positioned<OperationDefinition>>
    ensures { option_copied result
        ≡ option_map operation_of (option_map (named name.now) (under name.now operations.now)) }
{
    operations.get(name)
}
