//! Which fragments are spread in which, by their places in the document.
ghost use Rattle.std.specs.Prelude.{◌≡◌, ◌++◌, length, IfOk, OnOk};
ghost use Rattle.std.specs.List.{flat_map};
ghost use Rattle.std.specs.Option.{option_to_list};
ghost use Rattle.gql_base.specs.Names.{place_of};
ghost use Rattle.gql_base.specs.Pairs.{names_of};
ghost use Rattle.gql_rules.specs.Reaching.{AreBelow, AreWithin};
ghost use Rattle.gql_rules.specs.FragmentSpreads.{field_spreads, graph_of, inline_spreads};
ghost use Rattle.gql_rules.specs.FragmentSpreads.{selection_spreads, set_spreads, spread_in};

use gql_base::{Items, Made, Pairs};
use gql_doc::{
    Field, FragmentDefinition, FragmentSpread, InlineFragment, Positioned, Selection, SelectionSet,
};
use std::alloc::Global;

/// For each fragment, the places of the fragments that are spread in it, at whatever depth.
pub fn graph_of(
    alloc: Global,
    fragments: &Pairs<Positioned<FragmentDefinition>>,
) -> Made<Items<Items<usize>>>
    ensures graph { IfOk result (λ graph. graph ≡ graph_of fragments.now) }
    ensures within { IfOk result (λ graph. AreWithin graph) }
{
    let mut graph = Items::with_capacity(alloc, fragments.len())?;
    for place in 0..fragments.len() {
        let (_, fragment) = fragments.at(place);
        graph.push(spread_in_fragment(alloc, fragment, fragments)?)?;
    }
    Ok(graph)
}

#[tactic(auto, using(crate::proofs::CycleLemmas::none_below))]
fn spread_in_fragment(
    alloc: Global,
    fragment: &Positioned<FragmentDefinition>,
    fragments: &Pairs<Positioned<FragmentDefinition>>,
) -> Made<Items<usize>>
    ensures places { IfOk result
        (λ places. places ≡ spread_in (names_of fragments.now) fragment.now) }
    ensures below { IfOk result (λ places. AreBelow (length fragments.now) places) }
{
    let mut places = Items::new(alloc);
    spread_in_set(&fragment.node.selection_set.node, fragments, &mut places)?;
    Ok(places)
}

#[cycle(spreads)]
fn spread_in_set(
    set: &SelectionSet,
    fragments: &Pairs<Positioned<FragmentDefinition>>,
    places: &mut Items<usize>,
) -> Made<()>
    requires below { AreBelow (length fragments.now) places.old }
    ensures places { OnOk result (places.new ≡ places.old
        ++ set_spreads (names_of fragments.now) set.now) }
    ensures below { OnOk result (AreBelow (length fragments.now) places.new) }
{
    spread_in_selections(set.items.as_slice(), fragments, places)
}

#[cycle(spreads)]
fn spread_in_selections(
    selections: &[Positioned<Selection>],
    fragments: &Pairs<Positioned<FragmentDefinition>>,
    places: &mut Items<usize>,
) -> Made<()>
    requires below { AreBelow (length fragments.now) places.old }
    ensures places { OnOk result (places.new ≡ places.old
        ++ flat_map (λ selection. selection_spreads (names_of fragments.now) selection.node)
        selections.now) }
    ensures below { OnOk result (AreBelow (length fragments.now) places.new) }
{
    for selection in selections {
        spread_in_selection(&selection.node, fragments, places)?;
    }
    Ok(())
}

#[cycle(spreads)]
fn spread_in_selection(
    selection: &Selection,
    fragments: &Pairs<Positioned<FragmentDefinition>>,
    places: &mut Items<usize>,
) -> Made<()>
    requires below { AreBelow (length fragments.now) places.old }
    ensures places { OnOk result (places.new ≡ places.old
        ++ selection_spreads (names_of fragments.now) selection.now) }
    ensures below { OnOk result (AreBelow (length fragments.now) places.new) }
{
    match selection {
        Selection::Field(field) => spread_in_field(&field.node, fragments, places),
        Selection::FragmentSpread(spread) => add_spread(spread, fragments, places),
        Selection::InlineFragment(inline) => spread_in_inline(&inline.node, fragments, places),
    }
}

#[cycle(spreads)]
fn spread_in_field(
    field: &Field,
    fragments: &Pairs<Positioned<FragmentDefinition>>,
    places: &mut Items<usize>,
) -> Made<()>
    requires below { AreBelow (length fragments.now) places.old }
    ensures places { OnOk result (places.new ≡ places.old
        ++ field_spreads (names_of fragments.now) field.now) }
    ensures below { OnOk result (AreBelow (length fragments.now) places.new) }
{
    spread_in_set(&field.selection_set.node, fragments, places)
}

#[cycle(spreads)]
fn spread_in_inline(
    inline: &InlineFragment,
    fragments: &Pairs<Positioned<FragmentDefinition>>,
    places: &mut Items<usize>,
) -> Made<()>
    requires below { AreBelow (length fragments.now) places.old }
    ensures places { OnOk result (places.new ≡ places.old
        ++ inline_spreads (names_of fragments.now) inline.now) }
    ensures below { OnOk result (AreBelow (length fragments.now) places.new) }
{
    spread_in_set(&inline.selection_set.node, fragments, places)
}

/// Adds the place of a spread's fragment, where there is one.
#[tactic(auto, using(crate::proofs::CycleLemmas::below_more))]
fn add_spread(
    spread: &Positioned<FragmentSpread>,
    fragments: &Pairs<Positioned<FragmentDefinition>>,
    places: &mut Items<usize>,
) -> Made<()>
    requires below { AreBelow (length fragments.now) places.old }
    ensures places { OnOk result (places.new ≡ places.old
        ++ option_to_list (place_of spread.now.node.fragment_name.node (names_of fragments.now))) }
    ensures below { OnOk result (AreBelow (length fragments.now) places.new) }
{
    match fragments.place_of(spread.node.fragment_name.node.as_str()) {
        Some(place) => places.push(place),
        None => Ok(()),
    }
}
