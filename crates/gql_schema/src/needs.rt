//! The types that each type can't do without, as a graph of their places. No contract rests on it:
//! it is what numbers are proposed from, and they are tested.
use crate::containment::needed_type;
use crate::schema_type::SchemaType;
use crate::types::Types;
use gql_base::{Items, Made};
use std::alloc::Global;

/// The places of the types that each type can't do without.
pub fn needs_of(alloc: Global, types: &Types) -> Made<Vec<Items<usize>>> {
    let mut needs = Vec::with_capacity(alloc, types.len())?;
    for place in 0..types.len() {
        needs.push(needs_of_type(alloc, types, types.at(place))?)?;
    }
    Ok(needs)
}

fn needs_of_type(alloc: Global, types: &Types, ty: &SchemaType) -> Made<Items<usize>> {
    let mut needs = Items::new(alloc);
    if let SchemaType::InputObject(input) = ty {
        for index in 0..input.len() {
            if let Some(place) = place_needed(types, needed_type(input.at(index).ty())) {
                needs.push(place)?;
            }
        }
    }
    Ok(needs)
}

fn place_needed(types: &Types, name: Option<&str>) -> Option<usize> {
    types.place_of(name?)
}
