//! The limit on how deep the sets of a document may lie. The walk enters no fragment twice with as
//! many levels left, so that it looks at each selection at most once for each number of levels.
ghost use Rattle.std.specs.Prelude.{◌≡◌, ◌+◌, ◌*◌, ◌<◌, ◌≤◌, None, suc, length, slice_get, IfOk};
ghost use Rattle.std.specs.Prelude.{map, MatchOption, OnOk, option_and_then, ◌⊎◌};
ghost use Rattle.std.specs.Option.{option_map};
ghost use Rattle.gql_base.specs.Pairs.{under, values_of};
ghost use Rattle.gql_doc.specs.declared.document.Selection.{out-Selection};
ghost use Rattle.gql_doc.specs.Depth.{deep_from, fragment_set, operation_set, operations_in};
ghost use Rattle.gql_doc.specs.Depth.{set_beneath, set_under};
ghost use Rattle.gql_doc.specs.First.{first_in};
ghost use Rattle.gql_rules.specs.Nesting.{IsWithinDepth};
ghost use Rattle.gql_admit.specs.Counted.{StaysKnown, budget, suffices as suffices_by};
ghost use Rattle.gql_admit.specs.Counted.{unless_found};
ghost use Rattle.gql_admit.specs.Limits.{depth_checked};
ghost use Rattle.gql_select.specs.Standing.{count_of, selections_in, standing, standing_among};
ghost use Rattle.gql_select.specs.Standing.{standing_by, standing_in, standing_of, total};
ghost use Rattle.gql_admit.specs.WalkedFragments.{IsFine};

use crate::beneath::set_beneath_field;
use crate::refusals::depth_error;
use gql_base::{Made, Pairs, Pos, ServerError, Steps};
use gql_doc::{
    DocumentOperations, ExecutableDocument, FragmentDefinition, FragmentSpread,
    OperationDefinition, Positioned, Selection, SelectionSet,
};
use std::alloc::Global;
use std::marker::Brand;
use std::sync::ledger::{Blank, Ledger};

/// Refuses a document where a set lies deeper than the limit, at the first such set. The set of an
/// operation has depth 0; that of a field, of a known fragment where it is spread and of an inline
/// fragment lies one deeper than the set around it.
pub fn check_depth(
    alloc: Global,
    doc: &ExecutableDocument,
    limit: usize,
) -> Made<Result<(), ServerError>>
    requires { limit < usize.MAX }
    ensures checked { IfOk result (λ checked. checked ≡ depth_checked doc.now limit) }
    ensures within { IfOk result (λ checked. OnOk checked (IsWithinDepth doc.now)) }
{
    let blank = Blank::new(1);
    check_on_blank::<Brand>(alloc, doc, limit, blank)
}

/// The same with steps that nobody looks at.
fn check_on_blank<L: Ledger>(
    alloc: Global,
    doc: &ExecutableDocument,
    limit: usize,
    blank: Blank,
) -> Made<Result<(), ServerError>>
    requires limit { limit < usize.MAX }
    requires name { blank.name ≡ L.name }
    requires parts { blank.parts ≡ L.parts }
    requires some { 0 < blank.parts }
    ensures checked { IfOk result (λ checked. checked ≡ depth_checked doc.now limit) }
    ensures within { IfOk result (λ checked. OnOk checked (IsWithinDepth doc.now)) }
{
    let mut steps: Steps<L> = Steps::new(blank);
    check_depth_counted(alloc, doc, limit, &mut steps)
}

/// The same, where each selection that is looked at is one step. There are at most as many as the
/// selections that stand in the document, times the limit and two, also where memory runs out.
pub fn check_depth_counted<L: Ledger>(
    alloc: Global,
    doc: &ExecutableDocument,
    limit: usize,
    steps: &mut Steps<L>,
) -> Made<Result<(), ServerError>>
    requires { limit < usize.MAX }
    ensures checked { IfOk result (λ checked. checked ≡ depth_checked doc.now limit) }
    ensures within { IfOk result (λ checked. OnOk checked (IsWithinDepth doc.now)) }
    ensures bound { steps.new ≤ steps.old + selections_in doc.now * (limit + 2) }
{
    match first_deep(alloc, doc, limit + 1, steps)? {
        None => Ok(Ok(())),
        Some(place) => Ok(Err(depth_error(alloc, limit, place)?)),
    }
}

/// The place of the first set for which so many levels don't suffice.
fn first_deep<L: Ledger>(
    alloc: Global,
    doc: &ExecutableDocument,
    levels: usize,
    steps: &mut Steps<L>,
) -> Made<Option<Pos>>
    ensures found { IfOk result (λ found. found ≡ first_in
        (λ operation. deep_from doc.now.fragments levels (operation_set operation))
        (operations_in doc.now.operations)) }
    ensures bound { steps.new ≤ steps.old
        + (standing_by doc.now.operations + levels * standing_in doc.now.fragments) }
{
    let mut fine = nothing_fine(alloc, &doc.fragments)?;
    match &doc.operations {
        DocumentOperations::Single(operation) => Ok(deep_set(
            &doc.fragments,
            &operation.node.selection_set,
            levels,
            fine.as_mut_slice(),
            steps,
        )),
        DocumentOperations::Multiple(operations) => Ok(deep_operations(
            &doc.fragments,
            operations,
            levels,
            fine.as_mut_slice(),
            steps,
        )),
    }
}

/// Of no fragment anything is known.
fn nothing_fine(
    alloc: Global,
    fragments: &Pairs<Positioned<FragmentDefinition>>,
) -> Made<Vec<Option<usize>>>
    ensures { IfOk result (λ fine. IsFine fragments.now fine.items) }
{
    vec![in alloc; None; fragments.len()]
}

fn deep_operations<L: Ledger>(
    fragments: &Pairs<Positioned<FragmentDefinition>>,
    operations: &Pairs<Positioned<OperationDefinition>>,
    levels: usize,
    fine: &mut [Option<usize>],
    steps: &mut Steps<L>,
) -> Option<Pos>
    requires { IsFine fragments.now fine.old }
    ensures found { result
        ≡ first_in (λ operation. deep_from fragments.now levels (operation_set operation))
        (values_of operations.now) }
    ensures bound { steps.new ≤ steps.old + (total (map standing_of (values_of operations.now))
        + budget levels (values_of fragments.now) fine.old) }
{
    for place in 0..operations.len() {
        let (_, operation) = operations.at(place);
        let found = deep_set(
            fragments,
            &operation.node.selection_set,
            levels,
            fine,
            steps,
        );
        if found.is_some() {
            return found;
        }
    }
    None
}

#[cycle(deep)]
fn deep_set<L: Ledger>(
    fragments: &Pairs<Positioned<FragmentDefinition>>,
    set: &Positioned<SelectionSet>,
    left: usize,
    fine: &mut [Option<usize>],
    steps: &mut Steps<L>,
) -> Option<Pos>
    requires { IsFine fragments.now fine.old }
    ensures found { result ≡ deep_from fragments.now left set.now }
    ensures fine { IsFine fragments.now fine.new }
    ensures known { StaysKnown fine.old fine.new }
    ensures bound { steps.new
        + unless_found result (budget left (values_of fragments.now) fine.new)
        ≤ steps.old + (standing set.now.node + budget left (values_of fragments.now) fine.old) }
{
    if left == 0 {
        return Some(set.pos);
    }
    deep_selections(fragments, set.node.items.as_slice(), left - 1, fine, steps)
}

#[cycle(deep)]
fn deep_selections<L: Ledger>(
    fragments: &Pairs<Positioned<FragmentDefinition>>,
    selections: &[Positioned<Selection>],
    left: usize,
    fine: &mut [Option<usize>],
    steps: &mut Steps<L>,
) -> Option<Pos>
    requires { IsFine fragments.now fine.old }
    ensures found { result ≡ first_in
        (λ selection. option_and_then (deep_from fragments.now left)
        (set_beneath fragments.now selection))
        selections.now }
    ensures fine { IsFine fragments.now fine.new }
    ensures known { StaysKnown fine.old fine.new }
    ensures bound { steps.new
        + unless_found result (budget (suc left) (values_of fragments.now) fine.new)
        ≤ steps.old + (standing_among selections.now
        + budget (suc left) (values_of fragments.now) fine.old) }
{
    for selection in selections {
        let found = deep_selection(fragments, &selection.node, left, fine, steps);
        if found.is_some() {
            return found;
        }
    }
    None
}

/// The same of a selection, which is one step.
#[cycle(deep)]
fn deep_selection<L: Ledger>(
    fragments: &Pairs<Positioned<FragmentDefinition>>,
    selection: &Selection,
    left: usize,
    fine: &mut [Option<usize>],
    steps: &mut Steps<L>,
) -> Option<Pos>
    requires { IsFine fragments.now fine.old }
    ensures found { result ≡ option_and_then (deep_from fragments.now left)
        (set_under fragments.now (out-Selection selection.now)) }
    ensures fine { IsFine fragments.now fine.new }
    ensures known { StaysKnown fine.old fine.new }
    ensures bound { steps.new
        + unless_found result (budget (suc left) (values_of fragments.now) fine.new)
        ≤ steps.old + (count_of selection.now
        + budget (suc left) (values_of fragments.now) fine.old) }
{
    steps.tick();
    match selection {
        Selection::Field(field) => match set_beneath_field(field) {
            None => None,
            Some(set) => deep_set(fragments, set, left, fine, steps),
        },
        Selection::FragmentSpread(spread) => deep_spread(fragments, spread, left, fine, steps),
        Selection::InlineFragment(inline) => {
            deep_set(fragments, &inline.node.selection_set, left, fine, steps)
        }
    }
}

#[cycle(deep)]
fn deep_spread<L: Ledger>(
    fragments: &Pairs<Positioned<FragmentDefinition>>,
    spread: &Positioned<FragmentSpread>,
    left: usize,
    fine: &mut [Option<usize>],
    steps: &mut Steps<L>,
) -> Option<Pos>
    requires { IsFine fragments.now fine.old }
    ensures found { result ≡ option_and_then (deep_from fragments.now left)
        (option_map fragment_set (under spread.now.node.fragment_name.node fragments.now)) }
    ensures fine { IsFine fragments.now fine.new }
    ensures known { StaysKnown fine.old fine.new }
    ensures bound { steps.new
        + unless_found result (budget (suc left) (values_of fragments.now) fine.new)
        ≤ steps.old + budget (suc left) (values_of fragments.now) fine.old }
{
    match fragments.place_of(spread.node.fragment_name.node.as_str()) {
        None => None,
        Some(place) => deep_fragment(fragments, place, left, fine, steps),
    }
}

/// The same of the fragment at a place. It is walked through only where it isn't known that so many
/// levels suffice.
#[cycle(deep)]
fn deep_fragment<L: Ledger>(
    fragments: &Pairs<Positioned<FragmentDefinition>>,
    place: usize,
    left: usize,
    fine: &mut [Option<usize>],
    steps: &mut Steps<L>,
) -> Option<Pos>
    requires within { place < length fragments.now }
    requires fine { IsFine fragments.now fine.old }
    ensures found { result ≡ option_and_then (deep_from fragments.now left)
        (option_map fragment_set (slice_get (values_of fragments.now) place)) }
    ensures fine { IsFine fragments.now fine.new }
    ensures known { StaysKnown fine.old fine.new }
    ensures bound { steps.new
        + unless_found result (budget (suc left) (values_of fragments.now) fine.new)
        ≤ steps.old + budget (suc left) (values_of fragments.now) fine.old }
{
    if suffices(fine[place], left) {
        return None;
    }
    let (_, fragment) = fragments.at(place);
    match deep_set(fragments, &fragment.node.selection_set, left, fine, steps) {
        Some(found) => Some(found),
        None => {
            fine[place] = Some(fewest(fine[place], left));
            None
        }
    }
}

/// True exactly where a number of levels is known to suffice, and so many are left.
fn suffices(known: Option<usize>, left: usize) -> bool
    ensures { result ≡ suffices_by known left }
{
    match known {
        None => false,
        Some(levels) => levels <= left,
    }
}

/// The number of levels that is known to suffice, or that which is left, whichever is less.
fn fewest(known: Option<usize>, left: usize) -> usize
    ensures left { result ≤ left }
    ensures known { MatchOption known (result ≡ left)
        (λ levels. (result ≤ levels) × ((result ≡ levels) ⊎ (result ≡ left))) }
{
    match known {
        None => left,
        Some(levels) => left.min(levels),
    }
}
