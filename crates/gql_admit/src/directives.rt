//! The limit on how many directives a field may have. The walk enters each fragment once.
ghost use Rattle.std.specs.Prelude.{◌≡◌, ◌+◌, ◌<◌, ◌≤◌, ℕ, None, false, map, suc, length, IfOk};
ghost use Rattle.std.specs.Prelude.{option_and_then, replicate, slice_get};
ghost use Rattle.std.specs.Option.{option_copied, option_map, option_or};
ghost use Rattle.gql_base.specs.Pairs.{under, values_of};
ghost use Rattle.gql_doc.specs.declared.document.Selection.{out-Selection};
ghost use Rattle.gql_doc.specs.declared.document.Selection.TheOpen.{Selection-F};
ghost use Rattle.gql_doc.specs.Depth.{deep, deep_from, field_set, fragment_set, if_any};
ghost use Rattle.gql_doc.specs.Depth.{operation_set, selections_of, set_beneath, set_under};
ghost use Rattle.gql_doc.specs.First.{first_in};
ghost use Rattle.gql_select.specs.Crowded.{crowded, crowded_from, crowded_here};
ghost use Rattle.gql_rules.specs.Nesting.{IsWithinDepth, NestsWithin};
ghost use Rattle.gql_admit.specs.Limits.{directives_checked};
ghost use Rattle.gql_select.specs.Standing.{count_of, selections_in, standing, standing_among};
ghost use Rattle.gql_select.specs.Standing.{standing_of, total, unentered};
ghost use Rattle.gql_admit.specs.WalkedFragments.{Finds, IsClean};

use crate::beneath::set_beneath_field;
use crate::refusals::directives_error;
use gql_base::{Made, Pairs, ServerError, Steps};
use gql_doc::{
    DocumentOperations, ExecutableDocument, Field, FragmentDefinition, FragmentSpread,
    OperationDefinition, Positioned, Selection, SelectionSet,
};
use std::alloc::Global;
use std::marker::Brand;
use std::sync::ledger::{Blank, Ledger};

/// Refuses a document that has a field with more directives than the limit, at the first such field
/// in document order, where spreads are entered as they stand. The document lies within some limit
/// on the depth.
pub fn check_directives(
    alloc: Global,
    doc: &ExecutableDocument,
    limit: usize,
) -> Made<Result<(), ServerError>>
    requires { IsWithinDepth doc.now }
    ensures { IfOk result (λ checked. (depth : ℕ) → deep doc.now depth ≡ None
        → checked ≡ directives_checked doc.now limit depth) }
{
    let blank = Blank::new(1);
    check_on_blank::<Brand>(alloc, doc, limit, blank)
}

/// The same with steps that nobody looks at.
fn check_on_blank<L: Ledger>(
    alloc: Global,
    doc: &ExecutableDocument,
    limit: usize,
    blank: Blank,
) -> Made<Result<(), ServerError>>
    requires within { IsWithinDepth doc.now }
    requires name { blank.name ≡ L.name }
    requires parts { blank.parts ≡ L.parts }
    requires some { 0 < blank.parts }
    ensures { IfOk result (λ checked. (depth : ℕ) → deep doc.now depth ≡ None
        → checked ≡ directives_checked doc.now limit depth) }
{
    let mut steps: Steps<L> = Steps::new(blank);
    check_directives_counted(alloc, doc, limit, &mut steps)
}

/// The same, where each selection that is looked at is one step. There are at most as many as the
/// selections that stand in the document, also where memory runs out.
pub fn check_directives_counted<L: Ledger>(
    alloc: Global,
    doc: &ExecutableDocument,
    limit: usize,
    steps: &mut Steps<L>,
) -> Made<Result<(), ServerError>>
    requires { IsWithinDepth doc.now }
    ensures checked { IfOk result (λ checked. (depth : ℕ) → deep doc.now depth ≡ None
        → checked ≡ directives_checked doc.now limit depth) }
    ensures bound { steps.new ≤ steps.old + selections_in doc.now }
{
    check_nested(alloc, doc, limit, usize::MAX, steps)
}

/// The same of a document for whose sets so many levels suffice.
fn check_nested<L: Ledger>(
    alloc: Global,
    doc: &ExecutableDocument,
    limit: usize,
    levels: usize,
    steps: &mut Steps<L>,
) -> Made<Result<(), ServerError>>
    requires { NestsWithin doc.now levels }
    ensures checked { IfOk result (λ checked. (depth : ℕ) → deep doc.now depth ≡ None
        → checked ≡ directives_checked doc.now limit depth) }
    ensures bound { steps.new ≤ steps.old + selections_in doc.now }
{
    match first_crowded(alloc, doc, limit, levels, steps)? {
        None => Ok(Ok(())),
        Some(field) => {
            let name = field.node.name.node.as_str();
            Ok(Err(directives_error(alloc, limit, name, field.pos)?))
        }
    }
}

/// The first field with more directives than the limit.
fn first_crowded<'a, L: Ledger>(
    alloc: Global,
    doc: &'a ExecutableDocument,
    limit: usize,
    levels: usize,
    steps: &mut Steps<L>,
) -> Made<Option<&'a Positioned<Field>>>
    requires { NestsWithin doc.now levels }
    ensures found { IfOk result (λ found. option_copied found ≡ crowded doc.now limit levels) }
    ensures bound { steps.new ≤ steps.old + selections_in doc.now }
{
    let mut entered = none_entered(alloc, &doc.fragments)?;
    match &doc.operations {
        DocumentOperations::Single(operation) => Ok(crowded_set(
            &doc.fragments,
            limit,
            &operation.node.selection_set,
            levels,
            entered.as_mut_slice(),
            steps,
        )),
        DocumentOperations::Multiple(operations) => Ok(crowded_operations(
            &doc.fragments,
            limit,
            operations,
            levels,
            entered.as_mut_slice(),
            steps,
        )),
    }
}

/// No fragment was entered.
fn none_entered(alloc: Global, fragments: &Pairs<Positioned<FragmentDefinition>>) -> Made<Vec<bool>>
    ensures { IfOk result
        (λ entered. entered.items ≡ replicate (length fragments.now) false) }
{
    vec![in alloc; false; fragments.len()]
}

fn crowded_operations<'a, L: Ledger>(
    fragments: &'a Pairs<Positioned<FragmentDefinition>>,
    limit: usize,
    operations: &'a Pairs<Positioned<OperationDefinition>>,
    levels: usize,
    entered: &mut [bool],
    steps: &mut Steps<L>,
) -> Option<&'a Positioned<Field>>
    requires nests { first_in
        (λ operation. deep_from fragments.now levels (operation_set operation))
        (values_of operations.now) ≡ None }
    requires long { length entered.old ≡ length fragments.now }
    requires clean { IsClean fragments.now limit levels entered.old }
    ensures found { option_copied result ≡ first_in
        (λ operation. crowded_from fragments.now limit levels (operation_set operation))
        (values_of operations.now) }
    ensures bound { steps.new + unentered (values_of fragments.now) entered.new
        ≤ steps.old + (total (map standing_of (values_of operations.now))
        + unentered (values_of fragments.now) entered.old) }
{
    for place in 0..operations.len() {
        let (_, operation) = operations.at(place);
        let set = &operation.node.selection_set;
        let found = crowded_set(fragments, limit, set, levels, entered, steps);
        if found.is_some() {
            return found;
        }
    }
    None
}

#[cycle(crowded)]
fn crowded_set<'a, L: Ledger>(
    fragments: &'a Pairs<Positioned<FragmentDefinition>>,
    limit: usize,
    set: &'a Positioned<SelectionSet>,
    left: usize,
    entered: &mut [bool],
    steps: &mut Steps<L>,
) -> Option<&'a Positioned<Field>>
    requires nests { deep_from fragments.now left set.now ≡ None }
    requires long { length entered.old ≡ length fragments.now }
    ensures found { (levels : ℕ) → deep_from fragments.now levels set.now ≡ None
        → IsClean fragments.now limit levels entered.old
        → Finds fragments.now limit levels entered.old entered.new (option_copied result)
        (crowded_from fragments.now limit left set.now) }
    ensures bound { steps.new + unentered (values_of fragments.now) entered.new
        ≤ steps.old + (standing set.now.node
        + unentered (values_of fragments.now) entered.old) }
{
    let selections = set.node.items.as_slice();
    crowded_selections(fragments, limit, selections, left - 1, entered, steps)
}

#[cycle(crowded)]
fn crowded_selections<'a, L: Ledger>(
    fragments: &'a Pairs<Positioned<FragmentDefinition>>,
    limit: usize,
    selections: &'a [Positioned<Selection>],
    left: usize,
    entered: &mut [bool],
    steps: &mut Steps<L>,
) -> Option<&'a Positioned<Field>>
    requires nests { first_in
        (λ selection. option_and_then (deep_from fragments.now left)
        (set_beneath fragments.now selection))
        selections.now ≡ None }
    requires long { length entered.old ≡ length fragments.now }
    ensures found { (levels : ℕ) → first_in
        (λ selection. option_and_then (deep_from fragments.now levels)
        (set_beneath fragments.now selection))
        selections.now ≡ None
        → IsClean fragments.now limit (suc levels) entered.old
        → Finds fragments.now limit (suc levels) entered.old entered.new (option_copied result)
        (first_in
        (λ selection. option_or (crowded_here limit (out-Selection selection.node))
        (option_and_then (crowded_from fragments.now limit left)
        (set_beneath fragments.now selection)))
        selections.now) }
    ensures bound { steps.new + unentered (values_of fragments.now) entered.new
        ≤ steps.old + (standing_among selections.now
        + unentered (values_of fragments.now) entered.old) }
{
    for selection in selections {
        let found = crowded_selection(fragments, limit, &selection.node, left, entered, steps);
        if found.is_some() {
            return found;
        }
    }
    None
}

/// The same of a selection, which is one step.
#[cycle(crowded)]
fn crowded_selection<'a, L: Ledger>(
    fragments: &'a Pairs<Positioned<FragmentDefinition>>,
    limit: usize,
    selection: &'a Selection,
    left: usize,
    entered: &mut [bool],
    steps: &mut Steps<L>,
) -> Option<&'a Positioned<Field>>
    requires nests { option_and_then (deep_from fragments.now left)
        (set_under fragments.now (out-Selection selection.now)) ≡ None }
    requires long { length entered.old ≡ length fragments.now }
    ensures found { (levels : ℕ) → option_and_then (deep_from fragments.now levels)
        (set_under fragments.now (out-Selection selection.now)) ≡ None
        → IsClean fragments.now limit (suc levels) entered.old
        → Finds fragments.now limit (suc levels) entered.old entered.new (option_copied result)
        (option_or (crowded_here limit (out-Selection selection.now))
        (option_and_then (crowded_from fragments.now limit left)
        (set_under fragments.now (out-Selection selection.now)))) }
    ensures bound { steps.new + unentered (values_of fragments.now) entered.new
        ≤ steps.old + (count_of selection.now
        + unentered (values_of fragments.now) entered.old) }
{
    steps.tick();
    match selection {
        Selection::Field(field) => crowded_field(fragments, limit, field, left, entered, steps),
        Selection::FragmentSpread(spread) => {
            crowded_spread(fragments, limit, spread, left, entered, steps)
        }
        Selection::InlineFragment(inline) => {
            let set = &inline.node.selection_set;
            crowded_set(fragments, limit, set, left, entered, steps)
        }
    }
}

/// The same of a field, which may itself have too many.
#[cycle(crowded)]
fn crowded_field<'a, L: Ledger>(
    fragments: &'a Pairs<Positioned<FragmentDefinition>>,
    limit: usize,
    field: &'a Positioned<Field>,
    left: usize,
    entered: &mut [bool],
    steps: &mut Steps<L>,
) -> Option<&'a Positioned<Field>>
    requires nests { option_and_then (deep_from fragments.now left)
        (if_any (selections_of (field_set field.now)) (field_set field.now)) ≡ None }
    requires long { length entered.old ≡ length fragments.now }
    ensures found { (levels : ℕ) → option_and_then (deep_from fragments.now levels)
        (if_any (selections_of (field_set field.now)) (field_set field.now)) ≡ None
        → IsClean fragments.now limit (suc levels) entered.old
        → Finds fragments.now limit (suc levels) entered.old entered.new (option_copied result)
        (option_or (crowded_here limit (Selection-F.Field field.now))
        (option_and_then (crowded_from fragments.now limit left)
        (if_any (selections_of (field_set field.now)) (field_set field.now)))) }
    ensures bound { steps.new + unentered (values_of fragments.now) entered.new
        ≤ steps.old + (standing (field_set field.now).node
        + unentered (values_of fragments.now) entered.old) }
{
    if limit < field.node.directives.len() {
        return Some(field);
    }
    match set_beneath_field(field) {
        None => None,
        Some(set) => crowded_set(fragments, limit, set, left, entered, steps),
    }
}

#[cycle(crowded)]
fn crowded_spread<'a, L: Ledger>(
    fragments: &'a Pairs<Positioned<FragmentDefinition>>,
    limit: usize,
    spread: &Positioned<FragmentSpread>,
    left: usize,
    entered: &mut [bool],
    steps: &mut Steps<L>,
) -> Option<&'a Positioned<Field>>
    requires nests { option_and_then (deep_from fragments.now left)
        (option_map fragment_set (under spread.now.node.fragment_name.node fragments.now)) ≡ None }
    requires long { length entered.old ≡ length fragments.now }
    ensures found { (levels : ℕ) → option_and_then (deep_from fragments.now levels)
        (option_map fragment_set (under spread.now.node.fragment_name.node fragments.now)) ≡ None
        → IsClean fragments.now limit (suc levels) entered.old
        → Finds fragments.now limit (suc levels) entered.old entered.new (option_copied result)
        (option_and_then (crowded_from fragments.now limit left)
        (option_map fragment_set (under spread.now.node.fragment_name.node fragments.now))) }
    ensures bound { steps.new + unentered (values_of fragments.now) entered.new
        ≤ steps.old + unentered (values_of fragments.now) entered.old }
{
    match fragments.place_of(spread.node.fragment_name.node.as_str()) {
        None => None,
        Some(place) => crowded_fragment(fragments, limit, place, left, entered, steps),
    }
}

/// The same of the fragment at a place, which is entered once.
#[cycle(crowded)]
fn crowded_fragment<'a, L: Ledger>(
    fragments: &'a Pairs<Positioned<FragmentDefinition>>,
    limit: usize,
    place: usize,
    left: usize,
    entered: &mut [bool],
    steps: &mut Steps<L>,
) -> Option<&'a Positioned<Field>>
    requires within { place < length fragments.now }
    requires nests { option_and_then (deep_from fragments.now left)
        (option_map fragment_set (slice_get (values_of fragments.now) place)) ≡ None }
    requires long { length entered.old ≡ length fragments.now }
    ensures found { (levels : ℕ) → option_and_then (deep_from fragments.now levels)
        (option_map fragment_set (slice_get (values_of fragments.now) place)) ≡ None
        → IsClean fragments.now limit (suc levels) entered.old
        → Finds fragments.now limit (suc levels) entered.old entered.new (option_copied result)
        (option_and_then (crowded_from fragments.now limit left)
        (option_map fragment_set (slice_get (values_of fragments.now) place))) }
    ensures bound { steps.new + unentered (values_of fragments.now) entered.new
        ≤ steps.old + unentered (values_of fragments.now) entered.old }
{
    if entered[place] {
        return None;
    }
    entered[place] = true;
    let (_, fragment) = fragments.at(place);
    crowded_set(
        fragments,
        limit,
        &fragment.node.selection_set,
        left,
        entered,
        steps,
    )
}
