//! Input objects that contain themselves.
ghost use Rattle.std.specs.Prelude.{◌≡◌, IfOk, OnOk};
ghost use Rattle.std.specs.Bool.{Decides};
ghost use Rattle.std.specs.Option.{option_copied};
ghost use Rattle.gql_schema.specs.NameSet.{with_names, with_optional};
ghost use Rattle.gql_schema.specs.Ranks.{AreRanks};
ghost use Rattle.gql_schema.specs.Sound.{ContainsItself, NeedsItself, needed_in, needed_names};
ghost use Rattle.gql_schema.specs.Sound.{needed_of};
ghost use Rattle.gql_schema.specs.Table.{types_of};

use crate::input_object::InputObject;
use crate::name_set::NameSet;
use crate::ranks::{needs_at_most, rank_of};
use crate::schema_type::SchemaType;
use crate::types::Types;
use gql_base::{Made, Name, TypeRef};
use std::alloc::Global;

/// True exactly where the type is an input object that contains itself.
pub fn type_contains_itself(
    alloc: Global,
    types: &Types,
    ranks: &[usize],
    ty: &SchemaType,
) -> Made<bool>
    requires { AreRanks (types_of types.now) ranks.now }
    ensures { IfOk result (λ contains. Decides contains (ContainsItself (types_of types.now) ty.now)) }
{
    match ty {
        SchemaType::InputObject(input) => contains_itself(alloc, types, ranks, input.type_name()),
        _ => Ok(false),
    }
}

/// True exactly where a value of the input object needs one of itself. It does not where all that
/// it needs at once has lower numbers; only else is there a walk.
#[tactic(auto, using(crate::proofs::RankLemmas::falls_free))]
fn contains_itself(alloc: Global, types: &Types, ranks: &[usize], start: &str) -> Made<bool>
    requires { AreRanks (types_of types.now) ranks.now }
    ensures { IfOk result (λ contains. Decides contains (NeedsItself (types_of types.now) start.now)) }
{
    let own = rank_of(types, ranks, start);
    if own > 0 && needs_at_most(types, ranks, own - 1, types.get(start)) {
        return Ok(false);
    }
    reaches_itself(alloc, types, start)
}

/// True exactly where a value of the input object needs one of itself. The walk enters each input
/// object once.
fn reaches_itself(alloc: Global, types: &Types, start: &str) -> Made<bool>
    ensures { IfOk result (λ contains. Decides contains (NeedsItself (types_of types.now) start.now)) }
{
    let mut reached = NameSet::new(alloc);
    add_needed(alloc, &mut reached, types.get(start))?;
    let mut next = 0;
    'walk: while next < reached.len() {
        let name = Name::new(alloc, reached.at(next))?;
        add_needed(alloc, &mut reached, types.get(name.as_str()))?;
        drop(name);
        next += 1;
    }
    Ok(reached.has(start))
}

/// Adds the names of the types that the fields of an input object can't do without.
fn add_needed(alloc: Global, reached: &mut NameSet, ty: Option<&SchemaType>) -> Made<()>
    ensures { OnOk result (reached.new
        ≡ with_names reached.old (needed_in (option_copied ty.entry))) }
{
    match ty {
        Some(SchemaType::InputObject(input)) => add_needed_of(alloc, reached, input),
        _ => Ok(()),
    }
}

fn add_needed_of(alloc: Global, reached: &mut NameSet, input: &InputObject) -> Made<()>
    ensures { OnOk result (reached.new ≡ with_names reached.old (needed_names input.now)) }
{
    for place in 0..input.len() {
        let (_, field) = input.entry(place);
        add_optional(alloc, reached, needed_type(field.ty()))?;
    }
    Ok(())
}

fn add_optional(alloc: Global, reached: &mut NameSet, name: Option<&str>) -> Made<()>
    ensures { OnOk result (reached.new ≡ with_optional reached.old (option_copied name.entry)) }
{
    match name {
        Some(name) => reached.add(Name::new(alloc, name)?),
        None => Ok(()),
    }
}

/// The name of a type that is non-null and named, or none.
pub fn needed_type(ty: &TypeRef) -> Option<&str>
    ensures { option_copied result ≡ needed_of ty.now }
{
    match ty {
        TypeRef::NonNull(inner) => match inner.get() {
            TypeRef::Named(name) => Some(name.as_str()),
            TypeRef::NonNull(_) | TypeRef::List(_) => None,
        },
        TypeRef::Named(_) | TypeRef::List(_) => None,
    }
}
