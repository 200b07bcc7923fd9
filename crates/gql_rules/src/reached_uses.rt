//! The uses of variables at the places that an operation reaches.
ghost use Rattle.std.specs.Prelude.{◌≡◌, ◌++◌, ◌+◌, ◌<◌, IfOk, OnOk, length, map, slice_set};
ghost use Rattle.std.specs.List.{flat_map};
ghost use Rattle.gql_base.specs.Pairs.{names_of, values_of};
ghost use Rattle.gql_fields.specs.BuiltIn.{built_in as the_built_in};
ghost use Rattle.gql_fields.specs.Places.{fragment_places};
ghost use Rattle.gql_fields.specs.UsePlaceViews.{listed_behind, listed_of, operation_behind};
ghost use Rattle.gql_fields.specs.UsePlaceViews.{place_behind, shown};
ghost use Rattle.gql_fields.specs.UsePlaces.{kept};
ghost use Rattle.gql_fields.specs.Walk.{terms_in};
ghost use Rattle.gql_rules.specs.Adds.{Adds, HoldsSame};
ghost use Rattle.gql_rules.specs.AlikeOperations.{AreEmpty, AreGathered, WrongBefore, WrongSpread};
ghost use Rattle.gql_rules.specs.AlikeOperations.{definitions_of, told_listed};
ghost use Rattle.gql_rules.specs.Reaching.{AreBelow, led_to};
ghost use Rattle.gql_rules.specs.Spread.{IsSpread};
ghost use Rattle.gql_rules.specs.ReachedUses.{WrongUseIn, spread_at, spreads_at};
ghost use Rattle.gql_rules.specs.ReachedUses.{uses_told_in};

use crate::alike_operations::{head_of, proposed_heads};
use crate::reaching::reached_from;
use crate::spread::Spread;
use crate::variable_uses::tell_uses;
use gql_base::{Items, Made, Pairs};
use gql_doc::{FragmentDefinition, Positioned};
use gql_fields::{Against, Breach, Listed, OperationPlaces, UsePlace, sorted_once};
use gql_request::{Defined, definition_places};
use std::alloc::Global;
use std::mem;

/// So many breaches are held without a look whether some are told more than once.
const FEW_BREACHES: usize = 4096;

/// Tells of the variables that are used wrongly at a place that an operation reaches, by the places
/// of a document that were listed. Of operations that ask the same of fragments, each fragment is
/// looked at once.
pub fn tell_wrong_uses(
    listed: &Listed<'_>,
    against: &Against<'_>,
    found: &mut Items<Breach>,
) -> Made<()>
    requires built { against.now.built.now ≡ the_built_in }
    requires operations { map listed_behind listed.now.operations
        ≡ map (listed_of (terms_in against.now)) (map operation_behind listed.now.operations) }
    requires fragments { map shown listed.now.fragments
        ≡ map (λ fragment. kept (fragment_places (terms_in against.now) fragment))
        (values_of against.now.fragments.now) }
    ensures { OnOk result (Adds (WrongUseIn (terms_in against.now) against.now.fragments.now
        (map operation_behind listed.now.operations)) found.old found.new) }
{
    let lists = listed.fragments.as_slice();
    let graph = graph_of(against.alloc, lists, against.fragments)?;
    let spread = Spread {
        places: lists,
        graph: graph.as_slice(),
    };
    let operations = listed.operations.as_slice();
    tell_operations(operations, against, found)?;
    let starts = starts_of(operations, against)?;
    tell_spread(operations, starts.as_slice(), &spread, against, found)?;
    Ok(())
}

/// Tells of the uses at the own places of operations.
fn tell_operations(
    operations: &[OperationPlaces<'_>],
    against: &Against<'_>,
    found: &mut Items<Breach>,
) -> Made<()>
    ensures { OnOk result (found.new ≡ found.old
        ++ flat_map (told_listed against.now.built.now (terms_in against.now)) operations.now) }
{
    for listed in operations {
        tell_operation(listed, against, found)?;
    }
    Ok(())
}

fn tell_operation(
    listed: &OperationPlaces<'_>,
    against: &Against<'_>,
    found: &mut Items<Breach>,
) -> Made<()>
    ensures { OnOk result (found.new ≡ found.old
        ++ told_listed against.now.built.now (terms_in against.now) listed.now) }
{
    let definitions = listed.operation.node.variable_definitions.as_slice();
    let index = definition_places(against.alloc, definitions)?;
    let defined = Defined::new(definitions, &index);
    tell_uses(listed.places.as_slice(), &defined, against, found)?;
    Ok(())
}

/// Beside each operation the fragments that are spread in those that it stands for: some that ask
/// the same.
fn starts_of(operations: &[OperationPlaces<'_>], against: &Against<'_>) -> Made<Items<Items<usize>>>
    ensures { IfOk result (λ starts. AreGathered (names_of against.now.fragments.now)
        operations.now (length operations.now) starts) }
{
    let heads = proposed_heads(against.alloc, operations)?;
    let mut starts = no_starts(against.alloc, operations.len())?;
    for place in 0..operations.len() {
        gather(operations, heads.as_slice(), place, against, &mut starts)?;
    }
    Ok(starts)
}

/// Nothing beside each of so many.
#[tactic(auto, using(crate::proofs::GatheringLemmas::no_starts, crate::proofs::GatheringLemmas::starts_more))]
fn no_starts(alloc: Global, count: usize) -> Made<Items<Items<usize>>>
    ensures { IfOk result (λ starts. AreEmpty count starts) }
{
    let mut starts = Items::with_capacity(alloc, count)?;
    for _place in 0..count {
        starts.push(Items::new(alloc))?;
    }
    Ok(starts)
}

/// Puts what is spread in the operation at a place beside the one that stands for it.
fn gather(
    operations: &[OperationPlaces<'_>],
    heads: &[usize],
    place: usize,
    against: &Against<'_>,
    starts: &mut Items<Items<usize>>,
) -> Made<()>
    requires inside { place < length operations.now }
    requires starts { AreGathered (names_of against.now.fragments.now) operations.now place
        starts.old }
    ensures { OnOk result (AreGathered (names_of against.now.fragments.now) operations.now
        (place + 1) starts.new) }
{
    let head = head_of(operations, heads, place);
    let own = operations[place].places.as_slice();
    let spreads = spreads_in(against.alloc, own, against.fragments)?;
    append_at(starts, head, spreads)?;
    Ok(())
}

fn append_at(lists: &mut Items<Items<usize>>, place: usize, more: Items<usize>) -> Made<()>
    requires { place < length lists.old }
    ensures { OnOk result (lists.new
        ≡ slice_set lists.old place (led_to lists.old place ++ more)) }
{
    lists.at_mut(place).append(more)
}

/// Tells of the uses in the fragments that are reached from those beside each operation, by its
/// definitions.
fn tell_spread(
    operations: &[OperationPlaces<'_>],
    starts: &[Items<usize>],
    spread: &Spread<'_>,
    against: &Against<'_>,
    found: &mut Items<Breach>,
) -> Made<()>
    requires built { against.now.built.now ≡ the_built_in }
    requires spread { IsSpread (terms_in against.now) against.now.fragments.now spread.now }
    requires starts { AreGathered (names_of against.now.fragments.now) operations.now
        (length operations.now) starts.now }
    ensures { OnOk result (Adds (WrongBefore (terms_in against.now) against.now.fragments.now
        operations.now starts.now (length operations.now)) found.old found.new) }
{
    let mut most = FEW_BREACHES;
    for place in 0..operations.len() {
        let own = starts[place].as_slice();
        tell_from(&operations[place], own, spread, against, found)?;
        most = told_once(against.alloc, found, most);
    }
    Ok(())
}

/// Tells of the uses in the fragments that are reached from some, by the definitions of an
/// operation.
fn tell_from(
    listed: &OperationPlaces<'_>,
    starts: &[usize],
    spread: &Spread<'_>,
    against: &Against<'_>,
    found: &mut Items<Breach>,
) -> Made<()>
    requires built { against.now.built.now ≡ the_built_in }
    requires spread { IsSpread (terms_in against.now) against.now.fragments.now spread.now }
    requires starts { AreBelow (length (names_of against.now.fragments.now)) starts.now }
    ensures { OnOk result (Adds (WrongSpread (terms_in against.now) against.now.fragments.now
        (definitions_of listed.now) starts.now) found.old found.new) }
{
    if starts.is_empty() {
        return Ok(());
    }
    let definitions = listed.operation.node.variable_definitions.as_slice();
    let index = definition_places(against.alloc, definitions)?;
    let defined = Defined::new(definitions, &index);
    let reached = reached_from(against.alloc, spread.graph, starts)?;
    tell_reached(reached.as_slice(), &defined, spread.places, against, found)?;
    Ok(())
}

/// Tells each breach once where there are more than so many, and answers how many there may be
/// before that is done again. So the memory is that of the answer, however many operations break a
/// rule at one place.
#[tactic(auto, using(crate::proofs::AddingLemmas::holds_itself, crate::proofs::AddingLemmas::holds_listed))]
fn told_once(alloc: Global, found: &mut Items<Breach>, most: usize) -> usize
    ensures { HoldsSame found.old found.new }
{
    if found.len() <= most {
        return most;
    }
    let all = mem::replace(found, Items::new(alloc));
    *found = sorted_once(all);
    found.len().saturating_mul(2).max(most)
}

/// Tells of the uses in the fragments that are reached.
fn tell_reached(
    reached: &[usize],
    defined: &Defined<'_>,
    places: &[Items<UsePlace<'_>>],
    against: &Against<'_>,
    found: &mut Items<Breach>,
) -> Made<()>
    requires { AreBelow (length places.now) reached.now }
    ensures { OnOk result (found.new ≡ found.old
        ++ flat_map (uses_told_in against.now.built.now (terms_in against.now)
        defined.now (map shown places.now)) reached.now) }
{
    for at in reached {
        let places = places[*at].as_slice();
        tell_uses(places, defined, against, found)?;
    }
    Ok(())
}

/// For the places of each fragment, which fragments are spread there.
fn graph_of(
    alloc: Global,
    lists: &[Items<UsePlace<'_>>],
    fragments: &Pairs<Positioned<FragmentDefinition>>,
) -> Made<Items<Items<usize>>>
    ensures { IfOk result (λ graph. graph
        ≡ map (λ places. spreads_at (names_of fragments.now) (shown places)) lists.now) }
{
    let mut graph = Items::with_capacity(alloc, lists.len())?;
    for places in lists {
        graph.push(spreads_in(alloc, places.as_slice(), fragments)?)?;
    }
    Ok(graph)
}

/// The known fragments that are spread at some places.
fn spreads_in(
    alloc: Global,
    places: &[UsePlace<'_>],
    fragments: &Pairs<Positioned<FragmentDefinition>>,
) -> Made<Items<usize>>
    ensures { IfOk result
        (λ spreads. spreads ≡ spreads_at (names_of fragments.now) (shown places.now)) }
{
    let mut spreads = Items::new(alloc);
    for place in places {
        add_spread(place, fragments, &mut spreads)?;
    }
    Ok(spreads)
}

fn add_spread(
    place: &UsePlace<'_>,
    fragments: &Pairs<Positioned<FragmentDefinition>>,
    spreads: &mut Items<usize>,
) -> Made<()>
    ensures { OnOk result (spreads.new
        ≡ spreads.old ++ spread_at (names_of fragments.now) (place_behind place.now)) }
{
    match place {
        UsePlace::Spread(spread) => {
            match fragments.place_of(spread.node.fragment_name.node.as_str()) {
                Some(at) => spreads.push(at),
                None => Ok(()),
            }
        }
        UsePlace::Field(_, _) => Ok(()),
        UsePlace::Directive(_) => Ok(()),
    }
}
