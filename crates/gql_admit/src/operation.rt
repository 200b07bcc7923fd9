//! The choice of the operation that a request runs (section 6.1).
ghost use Rattle.std.specs.Prelude.{◌≡◌, ◌<◌, length, slice_get, IfOk, None, Some};
ghost use Rattle.std.specs.Option.{option_copied};
ghost use Rattle.gql_base.specs.Pairs.{values_of};
ghost use Rattle.gql_rules.specs.ChosenOperation.{chosen};
ghost use Rattle.gql_admit.specs.Choice.{choice, choice_of, kind_of};

use crate::chosen::Chosen;
use crate::refusals::choice_error;
use gql_base::{Made, Pairs, ServerError, Text};
use gql_doc::{
    DocumentOperations, ExecutableDocument, FragmentDefinition, OperationDefinition, OperationType,
    Positioned,
};
use gql_rules::chosen_in;
use std::alloc::Global;

/// The operation of the name, or without a name the only one. Nothing of it is copied.
pub fn choose_operation(
    alloc: Global,
    doc: ExecutableDocument,
    name: Option<&str>,
) -> Made<Result<Chosen, ServerError>>
    ensures { IfOk result (λ outcome. outcome ≡ choice doc (option_copied name.entry)) }
{
    let ExecutableDocument {
        operations,
        fragments,
    } = doc;
    match operations {
        DocumentOperations::Single(operation) => choose_single(alloc, operation, fragments, name),
        DocumentOperations::Multiple(operations) => match name {
            None => choose_only(alloc, operations, fragments),
            Some(name) => choose_named(alloc, operations, fragments, name),
        },
    }
}

/// The kind of the operation of the name, or without a name of the only one, where there is such an
/// operation.
#[tactic(auto, using(crate::proofs::ChoiceLemmas::kind_of_found, crate::proofs::ChoiceLemmas::kind_of_none))]
pub fn chosen_kind(doc: &ExecutableDocument, name: Option<&str>) -> Option<OperationType>
    ensures { result ≡ kind_of (chosen doc.now.operations (option_copied name.entry)) }
{
    match chosen_in(&doc.operations, name) {
        Some(operation) => Some(operation.node.ty),
        None => None,
    }
}

/// An operation without a name, which is chosen where no name is asked for.
fn choose_single(
    alloc: Global,
    operation: Positioned<OperationDefinition>,
    fragments: Pairs<Positioned<FragmentDefinition>>,
    name: Option<&str>,
) -> Made<Result<Chosen, ServerError>>
    ensures { IfOk result (λ outcome. outcome ≡ choice_of fragments (option_copied name.entry)
        (chosen (DocumentOperations.Single operation) (option_copied name.entry))) }
{
    match name {
        None => Ok(Ok(Chosen {
            operation_name: None,
            operation,
            fragments,
        })),
        Some(_) => Ok(Err(choice_error(alloc, name)?)),
    }
}

/// The only one of some operations.
fn choose_only(
    alloc: Global,
    operations: Pairs<Positioned<OperationDefinition>>,
    fragments: Pairs<Positioned<FragmentDefinition>>,
) -> Made<Result<Chosen, ServerError>>
    ensures { IfOk result (λ outcome. outcome ≡ choice_of fragments None
        (chosen (DocumentOperations.Multiple operations) None)) }
{
    if operations.len() != 1 {
        return Ok(Err(choice_error(alloc, None)?));
    }
    let (name, _) = operations.at(0);
    let name = Text::new(alloc, name)?;
    Ok(Ok(chosen_at(operations, 0, name, fragments)))
}

/// The operation of a name.
fn choose_named(
    alloc: Global,
    operations: Pairs<Positioned<OperationDefinition>>,
    fragments: Pairs<Positioned<FragmentDefinition>>,
    name: &str,
) -> Made<Result<Chosen, ServerError>>
    ensures { IfOk result (λ outcome. outcome ≡ choice_of fragments (Some name.now)
        (chosen (DocumentOperations.Multiple operations) (Some name.now))) }
{
    match operations.place_of(name) {
        None => Ok(Err(choice_error(alloc, Some(name))?)),
        Some(place) => {
            let name = Text::new(alloc, name)?;
            Ok(Ok(chosen_at(operations, place, name, fragments)))
        }
    }
}

/// The operation at a place, with a name and the fragments.
fn chosen_at(
    operations: Pairs<Positioned<OperationDefinition>>,
    place: usize,
    name: Text,
    fragments: Pairs<Positioned<FragmentDefinition>>,
) -> Chosen
    requires { place < length operations }
    ensures name { result.operation_name ≡ Some name }
    ensures operation { slice_get (values_of operations) place ≡ Some result.operation }
    ensures fragments { result.fragments ≡ fragments }
{
    // (asking the number shows that there are as many values as names)
    let count = operations.len();
    let (_, mut values) = operations.into_parts();
    let _count = count;
    Chosen {
        operation_name: Some(name),
        operation: values.swap_remove(place),
        fragments,
    }
}
