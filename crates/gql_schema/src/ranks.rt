//! Numbers of types, by which input objects are known not to contain themselves without a walk for
//! each.
ghost use Rattle.std.specs.Prelude.{◌≡◌, IfOk, slice_index};
ghost use Rattle.std.specs.List.{list_all};
ghost use Rattle.std.specs.Option.{option_copied};
ghost use Rattle.gql_schema.specs.Ranks.{AreRanks, has_low_fields, is_low, is_ranked, needs_low};
ghost use Rattle.gql_schema.specs.Ranks.{rank_of as rank};
ghost use Rattle.gql_schema.specs.Table.{types_of};

use crate::containment::needed_type;
use crate::input_object::InputObject;
use crate::needs::needs_of;
use crate::numbering::walk_numbers;
use crate::schema_type::SchemaType;
use crate::types::Types;
use gql_base::Made;
use std::alloc::Global;

/// A number for each type, such that no input object needs one of a higher number.
#[tactic(auto, using(crate::proofs::RankLemmas::ranked_all, crate::proofs::RankLemmas::ranked_none))]
pub fn ranks_of(alloc: Global, types: &Types) -> Made<Vec<usize>>
    ensures { IfOk result (λ ranks. AreRanks (types_of types.now) ranks.items) }
{
    let needs = needs_of(alloc, types)?;
    let numbers = walk_numbers(alloc, needs.as_slice())?;
    if are_ranks(types, numbers.as_slice()) {
        Ok(numbers)
    } else {
        Ok(Vec::new(alloc))
    }
}

/// The number of the type of this name, and 0 where there is none.
pub fn rank_of(types: &Types, ranks: &[usize], name: &str) -> usize
    ensures { result ≡ rank (types_of types.now) ranks.now name.now }
{
    match types.place_of(name) {
        Some(place) => rank_at(ranks, place),
        None => 0,
    }
}

fn rank_at(ranks: &[usize], place: usize) -> usize
    ensures { result ≡ slice_index ranks.now place }
{
    if place < ranks.len() { ranks[place] } else { 0 }
}

/// True exactly where all that the input objects need has at most their own numbers.
fn are_ranks(types: &Types, ranks: &[usize]) -> bool
    ensures { result ≡ list_all (is_ranked (types_of types.now) ranks.now) (types_of types.now) }
{
    for place in 0..types.len() {
        let (name, ty) = types.entry(place);
        if !needs_at_most(types, ranks, rank_of(types, ranks, name), Some(ty)) {
            return false;
        }
    }
    true
}

/// True exactly where all that an input object can't do without has at most this number.
pub fn needs_at_most(types: &Types, ranks: &[usize], most: usize, ty: Option<&SchemaType>) -> bool
    ensures { result ≡ needs_low (types_of types.now) ranks.now most (option_copied ty.entry) }
{
    match ty {
        Some(SchemaType::InputObject(input)) => fields_need_at_most(types, ranks, most, input),
        _ => true,
    }
}

fn fields_need_at_most(types: &Types, ranks: &[usize], most: usize, input: &InputObject) -> bool
    ensures { result ≡ has_low_fields (types_of types.now) ranks.now most input.now }
{
    for place in 0..input.len() {
        let (_, field) = input.entry(place);
        if !is_at_most(types, ranks, most, needed_type(field.ty())) {
            return false;
        }
    }
    true
}

fn is_at_most(types: &Types, ranks: &[usize], most: usize, name: Option<&str>) -> bool
    ensures { result ≡ is_low (types_of types.now) ranks.now most (option_copied name.entry) }
{
    match name {
        Some(name) => rank_of(types, ranks, name) <= most,
        None => true,
    }
}
