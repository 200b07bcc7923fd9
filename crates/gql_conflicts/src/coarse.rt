//! The coarse test: a document is cleared where fields are of one key and one class only if they
//! ask the same. Sets that may be merged with each other are of one class, whatever conditions on
//! types stand around, and a fragment is of one class wherever it is spread.
ghost use Rattle.std.specs.Prelude.{◌≡◌, ◌<◌, IfOk, IsTrue, length};
ghost use Rattle.gql_base.specs.Pairs.{values_of};
ghost use Rattle.gql_doc.specs.Depth.{operations_in};
ghost use Rattle.gql_conflicts.specs.Classes.{HasKeysOnce};
ghost use Rattle.gql_conflicts.specs.DocumentConflicts.{IsClear};
ghost use Rattle.gql_conflicts.specs.Proposals.{ascends_at, each_fits, fragment_fits_at, fragments_fit};
ghost use Rattle.gql_conflicts.specs.Proposals.{has_class, is_in_classes, mark_at};

use crate::entry::Entry;
use crate::fitting::all_fit;
use crate::marks::mark_of;
use crate::proposal::Proposal;
use crate::proposing::propose;
use crate::survey::survey_of;
use gql_base::{Made, Pairs};
use gql_doc::{
    DocumentOperations, ExecutableDocument, FragmentDefinition, OperationDefinition, Positioned,
};
use std::alloc::Global;

/// True only where a document has no conflict, whatever the types are.
pub fn is_clear(alloc: Global, doc: &ExecutableDocument) -> Made<bool>
    ensures { IfOk result (λ clear. IsTrue clear → IsClear doc.now) }
{
    let mut survey = survey_of(alloc, doc)?;
    match propose(alloc, doc, &mut survey)? {
        None => Ok(false),
        Some(proposal) => is_in_classes(alloc, doc, &proposal),
    }
}

/// True only where each set of a document fits its class, and a class has a key once.
fn is_in_classes(alloc: Global, doc: &ExecutableDocument, proposal: &Proposal<'_>) -> Made<bool>
    ensures { IfOk result (λ clear. IsTrue clear → is_in_classes doc.now proposal.now) }
{
    if !has_keys_once(proposal.entries.as_slice()) {
        return Ok(false);
    }
    let mut next = 0;
    if !fragments_fit(alloc, &doc.fragments, proposal, &mut next)? {
        return Ok(false);
    }
    operations_fit(alloc, doc, proposal, &mut next)
}

/// True only where a class has a key once: the entries are in the strict order of their marks.
#[tactic(auto, using(crate::proofs::BelowLemmas::below_more, crate::proofs::MarkLemmas::keys_once))]
fn has_keys_once(entries: &[Entry<'_>]) -> bool
    ensures { IsTrue result → HasKeysOnce entries.now }
{
    for place in 0..entries.len() {
        if !ascends_at(entries, place) {
            return false;
        }
    }
    true
}

/// True only where the mark of an entry is less than that of the next one, if there is one.
fn ascends_at(entries: &[Entry<'_>], place: usize) -> bool
    requires { place < length entries.now }
    ensures { IsTrue result → ascends_at entries.now place }
{
    match (entries.get(place), entries.get(place + 1)) {
        (Some(one), Some(other)) => mark_of_entry(one) < mark_of_entry(other),
        _ => true,
    }
}

fn mark_of_entry(entry: &Entry<'_>) -> u64
    ensures { result ≡ mark_at entry.now }
{
    mark_of(entry.class, entry.field.node.response_key().node.as_str())
}

#[tactic(auto, using(crate::proofs::BelowLemmas::below_more))]
fn fragments_fit(
    alloc: Global,
    fragments: &Pairs<Positioned<FragmentDefinition>>,
    proposal: &Proposal<'_>,
    next: &mut usize,
) -> Made<bool>
    ensures { IfOk result (λ fit. IsTrue fit → fragments_fit fragments.now proposal.now) }
{
    for place in 0..fragments.len() {
        if !fragment_fits(alloc, fragments, proposal, next, place)? {
            return Ok(false);
        }
    }
    Ok(true)
}

fn fragment_fits(
    alloc: Global,
    fragments: &Pairs<Positioned<FragmentDefinition>>,
    proposal: &Proposal<'_>,
    next: &mut usize,
    place: usize,
) -> Made<bool>
    requires { place < length fragments.now }
    ensures { IfOk result (λ fit. IsTrue fit
        → fragment_fits_at fragments.now proposal.now place) }
{
    match proposal.class_of(place) {
        None => Ok(false),
        Some(class) => {
            let (_, fragment) = fragments.at(place);
            let selections = fragment.node.selection_set.node.items.as_slice();
            all_fit(selections, class, alloc, fragments, proposal, next)
        }
    }
}

fn operations_fit(
    alloc: Global,
    doc: &ExecutableDocument,
    proposal: &Proposal<'_>,
    next: &mut usize,
) -> Made<bool>
    ensures { IfOk result (λ fit. IsTrue fit
        → each_fits doc.now.fragments proposal.now (operations_in doc.now.operations)) }
{
    match &doc.operations {
        DocumentOperations::Single(operation) => {
            operation_fits(alloc, &doc.fragments, proposal, next, operation, 0)
        }
        DocumentOperations::Multiple(operations) => {
            several_fit(alloc, &doc.fragments, proposal, next, operations)
        }
    }
}

#[tactic(auto, using(crate::proofs::BelowLemmas::each_more, crate::proofs::BelowLemmas::each_passed, crate::proofs::BelowLemmas::none_before))]
fn several_fit(
    alloc: Global,
    fragments: &Pairs<Positioned<FragmentDefinition>>,
    proposal: &Proposal<'_>,
    next: &mut usize,
    operations: &Pairs<Positioned<OperationDefinition>>,
) -> Made<bool>
    ensures { IfOk result (λ fit. IsTrue fit
        → each_fits fragments.now proposal.now (values_of operations.now)) }
{
    for place in 0..operations.len() {
        let (_, operation) = operations.at(place);
        if !operation_fits(alloc, fragments, proposal, next, operation, place)? {
            return Ok(false);
        }
    }
    Ok(true)
}

/// True only where the set of an operation fits a class, as that which is proposed for it.
fn operation_fits(
    alloc: Global,
    fragments: &Pairs<Positioned<FragmentDefinition>>,
    proposal: &Proposal<'_>,
    next: &mut usize,
    operation: &Positioned<OperationDefinition>,
    place: usize,
) -> Made<bool>
    ensures { IfOk result (λ fit. IsTrue fit
        → has_class fragments.now proposal.now operation.now) }
{
    match proposal.root_of(place) {
        None => Ok(false),
        Some(class) => {
            let selections = operation.node.selection_set.node.items.as_slice();
            all_fit(selections, class, alloc, fragments, proposal, next)
        }
    }
}
