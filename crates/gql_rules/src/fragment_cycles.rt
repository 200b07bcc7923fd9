//! Fragments that reach themselves by spreads.
ghost use Rattle.std.specs.Prelude.{◌≡◌, ◌<◌, length, string_bytes, IfOk, OnOk};
ghost use Rattle.gql_fields.specs.Breach.{breach};
ghost use Rattle.gql_rules.specs.Adds.{Adds};
ghost use Rattle.gql_rules.specs.BreachTexts.{circular_text};
ghost use Rattle.gql_rules.specs.Circles.{AreTold};
ghost use Rattle.gql_rules.specs.FragmentCycles.{CircularAt, IsCircular};
ghost use Rattle.gql_rules.specs.FragmentSpreads.{graph_of as spreads_of};

use crate::circles::circular_places;
use crate::fragment_spreads::graph_of;
use gql_base::{Items, Made, Pairs, Pos};
use gql_doc::{FragmentDefinition, Positioned};
use gql_fields::{Breach, BreachKind, breach_of};
use std::alloc::Global;

/// Tells of each fragment that reaches itself.
pub fn tell_circular(
    alloc: Global,
    fragments: &Pairs<Positioned<FragmentDefinition>>,
    found: &mut Items<Breach>,
) -> Made<()>
    ensures { OnOk result (Adds (IsCircular fragments.now) found.old found.new) }
{
    let graph = graph_of(alloc, fragments)?;
    let circular = circular_places(alloc, graph.as_slice())?;
    tell_each(alloc, fragments, circular.as_slice(), found)
}

#[tactic(auto, using(crate::proofs::CycleLemmas::each_before))]
fn tell_each(
    alloc: Global,
    fragments: &Pairs<Positioned<FragmentDefinition>>,
    circular: &[bool],
    found: &mut Items<Breach>,
) -> Made<()>
    requires { AreTold (spreads_of fragments.now) (length fragments.now) circular.now }
    ensures { OnOk result (Adds (IsCircular fragments.now) found.old found.new) }
{
    for place in 0..fragments.len() {
        tell_one(alloc, fragments, circular, place, found)?;
    }
    Ok(())
}

/// Tells of the fragment at a place, where it reaches itself.
fn tell_one(
    alloc: Global,
    fragments: &Pairs<Positioned<FragmentDefinition>>,
    circular: &[bool],
    place: usize,
    found: &mut Items<Breach>,
) -> Made<()>
    requires inside { place < length fragments.now }
    requires circular { AreTold (spreads_of fragments.now) (length fragments.now) circular.now }
    ensures { OnOk result (Adds (CircularAt fragments.now place) found.old found.new) }
{
    if !circular[place] {
        return Ok(());
    }
    let (name, fragment) = fragments.at(place);
    found.push(circular_fragment(alloc, fragment.pos, name)?)
}

/// A fragment that reaches itself.
fn circular_fragment(alloc: Global, pos: Pos, name: &str) -> Made<Breach>
    ensures { IfOk result (λ made. made
        ≡ breach pos BreachKind.CircularFragment name.now (circular_text name.now)) }
{
    let text = circular_message(alloc, name)?;
    breach_of(alloc, pos, BreachKind::CircularFragment, name, text)
}

#[tactic(auto, unfolding(crate::specs::BreachTexts::circular_text))]
fn circular_message(alloc: Global, name: &str) -> Made<String>
    ensures { IfOk result (λ text. string_bytes text ≡ circular_text name.now) }
{
    format!(in alloc; "Fragment \"{name}\" contains itself.")
}
