//! What an object keeps of the interfaces that it implements.
ghost use Rattle.std.specs.Prelude.{◌≡◌};
ghost use Rattle.std.specs.Option.{option_copied};
ghost use Rattle.gql_schema.specs.Faults.{has_arguments, has_only_spare, has_same_type};
ghost use Rattle.gql_schema.specs.Faults.{implemented_fault, interface_promises_fault};
ghost use Rattle.gql_schema.specs.Faults.{Tells, is_spare, keeps, promise_fault, promises_fault};
ghost use Rattle.gql_schema.specs.Table.{types_of};

use crate::by_name::ByName;
use crate::covariance::is_covariant_to;
use crate::field::Field;
use crate::input_value::InputValue;
use crate::interface::Interface;
use crate::interface_field::InterfaceField;
use crate::object::Object;
use crate::places::{check_name, check_place};
use crate::schema_error::SchemaError;
use crate::schema_rule::SchemaRule;
use crate::schema_type::SchemaType;
use crate::texts::{fault_where, text_around};
use crate::types::Types;
use gql_base::Made;
use std::alloc::Global;

fn has_type_of(promised: &InputValue, argument: Option<&InputValue>) -> bool
    ensures { result ≡ has_same_type promised.now (option_copied argument.entry) }
{
    match argument {
        Some(argument) => *argument.ty() == *promised.ty(),
        None => false,
    }
}

/// True exactly where each promised argument is there with its type.
fn has_promised(promised: &ByName<InputValue>, arguments: &ByName<InputValue>) -> bool
    ensures { result ≡ has_arguments promised.now arguments.now }
{
    for place in 0..promised.len() {
        let (name, argument) = promised.at(place);
        if !has_type_of(argument, arguments.get(name)) {
            return false;
        }
    }
    true
}

fn is_spare_argument(promised: &ByName<InputValue>, name: &str, argument: &InputValue) -> bool
    ensures { result ≡ is_spare promised.now (name.now, argument.now) }
{
    promised.get(name).is_some() || argument.ty().is_nullable() || argument.default().is_some()
}

/// True exactly where each argument that isn't promised can be left out.
fn has_only_optional(promised: &ByName<InputValue>, arguments: &ByName<InputValue>) -> bool
    ensures { result ≡ has_only_spare promised.now arguments.now }
{
    for place in 0..arguments.len() {
        let (name, argument) = arguments.at(place);
        if !is_spare_argument(promised, name, argument) {
            return false;
        }
    }
    true
}

/// True exactly where there is a field that keeps what an interface promises of it.
fn keeps_promise(types: &Types, promised: &InterfaceField, field: Option<&Field>) -> bool
    ensures { result ≡ keeps (types_of types.now) promised.now (option_copied field.entry) }
{
    match field {
        Some(field) => {
            is_covariant_to(field.ty(), promised.ty(), types)
                && has_promised(promised.arguments(), field.arguments())
                && has_only_optional(promised.arguments(), field.arguments())
        }
        None => false,
    }
}

fn check_promise(
    alloc: Global,
    types: &Types,
    object: &Object,
    interface: &Interface,
    promised: &InterfaceField,
) -> Made<Option<SchemaError>>
    ensures { Tells result (promise_fault (types_of types.now) object.now interface.now promised.now) }
{
    if keeps_promise(types, promised, object.get(promised.name())) {
        return Ok(None);
    }
    let field = text_around(alloc, "\" at field \"", promised.name(), "\"")?;
    let promise = text_around(
        alloc,
        "\" does not satisfy interface \"",
        interface.type_name(),
        field.as_str(),
    )?;
    fault_where(
        alloc,
        true,
        SchemaRule::Unsatisfied,
        "Object \"",
        object.type_name(),
        promise.as_str(),
    )
}

fn check_promises(
    alloc: Global,
    types: &Types,
    object: &Object,
    interface: &Interface,
) -> Made<Option<SchemaError>>
    ensures { Tells result (interface_promises_fault (types_of types.now) object.now interface.now) }
{
    for place in 0..interface.len() {
        let (_, promised) = interface.entry(place);
        let found = check_promise(alloc, types, object, interface, promised)?;
        if found.is_some() {
            return Ok(found);
        }
    }
    Ok(None)
}

fn check_implemented_type(
    alloc: Global,
    types: &Types,
    object: &Object,
    name: &str,
    ty: Option<&SchemaType>,
) -> Made<Option<SchemaError>>
    ensures { Tells result
        (promises_fault (types_of types.now) object.now name.now (option_copied ty.entry)) }
{
    match ty {
        Some(SchemaType::Interface(interface)) => check_promises(alloc, types, object, interface),
        _ => check_place(alloc, true, name),
    }
}

/// The first fault of an interface that an object says it implements.
pub fn check_implemented(
    alloc: Global,
    types: &Types,
    object: &Object,
    name: &str,
) -> Made<Option<SchemaError>>
    ensures { Tells result (implemented_fault (types_of types.now) object.now name.now) }
{
    match check_name(alloc, types, name)? {
        Some(fault) => Ok(Some(fault)),
        None => check_implemented_type(alloc, types, object, name, types.get(name)),
    }
}
