//! Whether a variable fits where it stands.
ghost use Rattle.std.specs.Prelude.{◌≡◌};
ghost use Rattle.std.specs.Option.{option_map};
ghost use Rattle.gql_schema.specs.Table.{types_of};
ghost use Rattle.gql_rules.specs.ValuePlace.{value_place_behind};
ghost use Rattle.gql_rules.specs.VariableUses.{compatible, eases as does_ease, fits_place as fits};
ghost use Rattle.gql_rules.specs.VariableUses.{has_value_default as has_default};

use crate::value_place::ValuePlace;
use gql_base::{TypeRef, Value};
use gql_doc::{Positioned, VariableDefinition};
use gql_schema::{Types, nullable, stands_at_inputs};

/// True exactly where a variable fits a place. Each fits where there is no type.
pub fn fits_place(
    definition: &VariableDefinition,
    place: Option<ValuePlace<'_>>,
    types: &Types,
) -> bool
    ensures { result ≡ fits (types_of types.now) definition.now
        (option_map value_place_behind place.entry) }
{
    match place {
        None => true,
        Some(place) => {
            let ty = &definition.var_type.node;
            stands_at_inputs(types, ty)
                && (is_compatible(ty, place.ty)
                    || eases(definition, &place) && is_compatible(ty, nullable(place.ty)))
        }
    }
}

/// True exactly where a default stands in for null.
fn eases(definition: &VariableDefinition, place: &ValuePlace<'_>) -> bool
    ensures { result ≡ does_ease definition.now (value_place_behind place.now) }
{
    definition.var_type.node.is_nullable()
        && !place.ty.is_nullable()
        && (has_value_default(&definition.default) || place.has_default)
}

pub fn has_value_default(default: &Option<Positioned<Value>>) -> bool
    ensures { result ≡ has_default default.now }
{
    match default {
        None => false,
        Some(default) => !matches!(default.node, Value::Null),
    }
}

/// True exactly where what a variable of the first type stands for fits a place of the second.
fn is_compatible(variable: &TypeRef, place: &TypeRef) -> bool
    ensures { result ≡ compatible variable.now place.now }
{
    match variable {
        TypeRef::NonNull(inner) => is_compatible(inner.get(), nullable(place)),
        TypeRef::List(inner) => match place {
            TypeRef::List(items) => is_compatible(inner.get(), items.get()),
            _ => false,
        },
        TypeRef::Named(name) => match place {
            TypeRef::Named(other) => name.as_str() == other.as_str(),
            _ => false,
        },
    }
}
