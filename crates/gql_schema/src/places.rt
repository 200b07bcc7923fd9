//! The rules at single places: names, types, arguments and defaults.
ghost use Rattle.std.specs.Prelude.{◌≡◌};
ghost use Rattle.std.specs.Option.{option_copied};
ghost use Rattle.gql_schema.specs.DeclaredField.{declared_behind};
ghost use Rattle.gql_schema.specs.Faults.{Tells, argument_fault, arguments_fault, default_fault};
ghost use Rattle.gql_schema.specs.Faults.{doubled_fault, field_fault, input_fault};
ghost use Rattle.gql_schema.specs.Faults.{is_no_output, kind_fault, misplaced_fault, name_fault};
ghost use Rattle.gql_schema.specs.Faults.{output_fault, unsupported_fault};
ghost use Rattle.gql_schema.specs.Table.{types_of};

use crate::by_name::ByName;
use crate::declared_field::DeclaredField;
use crate::fits::{has_no_support, is_doubly_non_null, is_known_kind, value_fits};
use crate::input_value::InputValue;
use crate::schema_error::SchemaError;
use crate::schema_rule::SchemaRule;
use crate::schema_type::SchemaType;
use crate::texts::{fault_where, join_names};
use crate::types::Types;
use gql_base::{Made, TypeRef};
use std::alloc::Global;

/// The fault of a name that no type may have.
pub fn check_support(alloc: Global, name: &str) -> Made<Option<SchemaError>>
    ensures { Tells result (unsupported_fault name.now) }
{
    fault_where(
        alloc,
        has_no_support(name),
        SchemaRule::Unsupported,
        "Type \"",
        name,
        "\" is not supported",
    )
}

/// The first fault of a name that is used as a type's.
pub fn check_name(alloc: Global, types: &Types, name: &str) -> Made<Option<SchemaError>>
    ensures { Tells result (name_fault (types_of types.now) name.now) }
{
    match check_support(alloc, name)? {
        Some(fault) => Ok(Some(fault)),
        None => fault_where(
            alloc,
            !types.get(name).is_some(),
            SchemaRule::NotFound,
            "Type \"",
            name,
            "\" not found",
        ),
    }
}

/// The fault of a type of a kind that can't stand at its place.
pub fn check_place(alloc: Global, misplaced: bool, name: &str) -> Made<Option<SchemaError>>
    ensures { Tells result (misplaced_fault misplaced name.now) }
{
    fault_where(
        alloc,
        misplaced,
        SchemaRule::Misplaced,
        "Type \"",
        name,
        "\" cannot be used here",
    )
}

fn check_doubled(alloc: Global, ty: &TypeRef) -> Made<Option<SchemaError>>
    ensures { Tells result (doubled_fault ty.now) }
{
    if !is_doubly_non_null(ty) {
        return Ok(None);
    }
    let text = ty.text(alloc)?;
    fault_where(
        alloc,
        true,
        SchemaRule::DoublyNonNull,
        "Type \"",
        text.as_str(),
        "\" is doubly non-null",
    )
}

fn check_kind(alloc: Global, misplaced: bool, ty: &TypeRef) -> Made<Option<SchemaError>>
    ensures { Tells result (kind_fault misplaced ty.now) }
{
    match check_place(alloc, misplaced, ty.type_name())? {
        Some(fault) => Ok(Some(fault)),
        None => check_doubled(alloc, ty),
    }
}

/// True exactly where there is a type of a kind that can't stand at an output.
fn is_input_only(ty: Option<&SchemaType>) -> bool
    ensures { result ≡ is_no_output (option_copied ty.entry) }
{
    match ty {
        Some(SchemaType::InputObject(_) | SchemaType::Subscription(_)) => true,
        _ => false,
    }
}

/// The first fault of a type at an output.
pub fn check_output(alloc: Global, types: &Types, ty: &TypeRef) -> Made<Option<SchemaError>>
    ensures { Tells result (output_fault (types_of types.now) ty.now) }
{
    match check_name(alloc, types, ty.type_name())? {
        Some(fault) => Ok(Some(fault)),
        None => check_kind(alloc, is_input_only(types.get(ty.type_name())), ty),
    }
}

/// The first fault of a type at an input.
pub fn check_input(alloc: Global, types: &Types, ty: &TypeRef) -> Made<Option<SchemaError>>
    ensures { Tells result (input_fault (types_of types.now) ty.now) }
{
    match check_name(alloc, types, ty.type_name())? {
        Some(fault) => Ok(Some(fault)),
        None => check_kind(alloc, !is_known_kind(types.get(ty.type_name())), ty),
    }
}

/// The fault of a default that doesn't fit. The owner is the path of what has the argument or the
/// field.
pub fn check_default(
    alloc: Global,
    types: &Types,
    owner: &str,
    input: &InputValue,
) -> Made<Option<SchemaError>>
    ensures { Tells result (default_fault (types_of types.now) owner.now input.now) }
{
    match input.default() {
        None => Ok(None),
        Some(value) => {
            if value_fits(value, input.ty(), types) {
                return Ok(None);
            }
            let path = join_names(alloc, owner, input.name())?;
            fault_where(
                alloc,
                true,
                SchemaRule::Unfit,
                "Default of \"",
                path.as_str(),
                "\" does not fit",
            )
        }
    }
}

fn check_argument(
    alloc: Global,
    types: &Types,
    owner: &str,
    input: &InputValue,
) -> Made<Option<SchemaError>>
    ensures { Tells result (argument_fault (types_of types.now) owner.now input.now) }
{
    match check_input(alloc, types, input.ty())? {
        Some(fault) => Ok(Some(fault)),
        None => check_default(alloc, types, owner, input),
    }
}

fn check_arguments(
    alloc: Global,
    types: &Types,
    owner: &str,
    arguments: &ByName<InputValue>,
) -> Made<Option<SchemaError>>
    ensures { Tells result (arguments_fault (types_of types.now) owner.now arguments.now) }
{
    for place in 0..arguments.len() {
        let (_, argument) = arguments.at(place);
        let found = check_argument(alloc, types, owner, argument)?;
        if found.is_some() {
            return Ok(found);
        }
    }
    Ok(None)
}

/// The first fault of a field with its arguments.
pub fn check_field(
    alloc: Global,
    types: &Types,
    owner: &str,
    name: &str,
    field: DeclaredField<'_>,
) -> Made<Option<SchemaError>>
    ensures { Tells result
        (field_fault (types_of types.now) owner.now name.now (declared_behind field.entry)) }
{
    match check_output(alloc, types, field.ty)? {
        Some(fault) => Ok(Some(fault)),
        None => {
            let path = join_names(alloc, owner, name)?;
            check_arguments(alloc, types, path.as_str(), field.arguments)
        }
    }
}
