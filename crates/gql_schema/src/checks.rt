//! The rules of a whole type: its name's, then those of its parts in their order.
ghost use Rattle.std.specs.Prelude.{IfOk};
ghost use Rattle.gql_schema.specs.Faults.{Tells, fault_of, fields_fault, input_field_fault};
ghost use Rattle.gql_schema.specs.Faults.{input_fields_fault};
ghost use Rattle.gql_schema.specs.Faults.{input_object_fault, input_rest_fault, interfaces_fault};
ghost use Rattle.gql_schema.specs.Faults.{member_fault, members_fault};
ghost use Rattle.gql_schema.specs.Faults.{object_fault, oneof_fault, parts_fault};
ghost use Rattle.gql_schema.specs.Ranks.{AreRanks};
ghost use Rattle.gql_schema.specs.Sound.{IsFaultOf, IsFaultOfAll};
ghost use Rattle.gql_schema.specs.Table.{types_of};

use crate::by_name::ByName;
use crate::containment::type_contains_itself;
use crate::covariance::is_known_object_type;
use crate::declared_field::Declares;
use crate::input_object::InputObject;
use crate::input_value::InputValue;
use crate::named::Named;
use crate::object::Object;
use crate::places::{check_default, check_field, check_input, check_name, check_support};
use crate::promises::check_implemented;
use crate::ranks::ranks_of;
use crate::schema_error::SchemaError;
use crate::schema_rule::SchemaRule;
use crate::schema_type::SchemaType;
use crate::texts::{fault_where, join_names, text_around};
use crate::types::Types;
use crate::union::Union;
use gql_base::Made;
use std::alloc::Global;

/// The first fault of fields of the type of a name.
fn check_fields<T: Named + Declares>(
    alloc: Global,
    types: &Types,
    owner: &str,
    fields: &ByName<T>,
) -> Made<Option<SchemaError>>
    ensures { Tells result (fields_fault T.declares (types_of types.now) owner.now fields.now) }
{
    for place in 0..fields.len() {
        let (name, field) = fields.at(place);
        let found = check_field(alloc, types, owner, name, field.declared())?;
        if found.is_some() {
            return Ok(found);
        }
    }
    Ok(None)
}

/// The first fault of the interfaces that an object implements.
fn check_interfaces(alloc: Global, types: &Types, object: &Object) -> Made<Option<SchemaError>>
    ensures { Tells result (interfaces_fault (types_of types.now) object.now) }
{
    let interfaces = object.interfaces();
    for place in 0..interfaces.len() {
        let found = check_implemented(alloc, types, object, interfaces[place].as_str())?;
        if found.is_some() {
            return Ok(found);
        }
    }
    Ok(None)
}

fn check_object(alloc: Global, types: &Types, object: &Object) -> Made<Option<SchemaError>>
    ensures { Tells result (object_fault (types_of types.now) object.now) }
{
    match check_fields(alloc, types, object.type_name(), object.fields())? {
        Some(fault) => Ok(Some(fault)),
        None => check_interfaces(alloc, types, object),
    }
}

fn check_member(
    alloc: Global,
    types: &Types,
    union_type: &Union,
    name: &str,
) -> Made<Option<SchemaError>>
    ensures { Tells result (member_fault (types_of types.now) union_type.now name.now) }
{
    if let Some(fault) = check_name(alloc, types, name)? {
        return Ok(Some(fault));
    }
    if is_known_object_type(types.get(name)) {
        return Ok(None);
    }
    let member = text_around(alloc, "\" has member \"", name, "\" that is no object")?;
    fault_where(
        alloc,
        true,
        SchemaRule::NoObject,
        "Union \"",
        union_type.type_name(),
        member.as_str(),
    )
}

/// The first fault of a union's members.
fn check_union(alloc: Global, types: &Types, union_type: &Union) -> Made<Option<SchemaError>>
    ensures { Tells result (members_fault (types_of types.now) union_type.now) }
{
    let members = union_type.members();
    for place in 0..members.len() {
        let name = members.at(place);
        let found = check_member(alloc, types, union_type, name)?;
        if found.is_some() {
            return Ok(found);
        }
    }
    Ok(None)
}

fn check_oneof(alloc: Global, input: &InputObject, field: &InputValue) -> Made<Option<SchemaError>>
    ensures { Tells result (oneof_fault input.now field.now) }
{
    let path = join_names(alloc, input.type_name(), field.name())?;
    let required = input.is_oneof() && !field.ty().is_nullable();
    match fault_where(
        alloc,
        required,
        SchemaRule::NotOptional,
        "Field \"",
        path.as_str(),
        "\" must be nullable",
    )? {
        Some(fault) => Ok(Some(fault)),
        None => {
            let given = input.is_oneof() && field.default().is_some();
            fault_where(
                alloc,
                given,
                SchemaRule::NotOptional,
                "Field \"",
                path.as_str(),
                "\" must not have a default value",
            )
        }
    }
}

fn check_input_rest(
    alloc: Global,
    types: &Types,
    input: &InputObject,
    field: &InputValue,
) -> Made<Option<SchemaError>>
    ensures { Tells result (input_rest_fault (types_of types.now) input.now field.now) }
{
    match check_oneof(alloc, input, field)? {
        Some(fault) => Ok(Some(fault)),
        None => check_default(alloc, types, input.type_name(), field),
    }
}

fn check_input_field(
    alloc: Global,
    types: &Types,
    input: &InputObject,
    field: &InputValue,
) -> Made<Option<SchemaError>>
    ensures { Tells result (input_field_fault (types_of types.now) input.now field.now) }
{
    match check_input(alloc, types, field.ty())? {
        Some(fault) => Ok(Some(fault)),
        None => check_input_rest(alloc, types, input, field),
    }
}

/// The first fault of an input object's fields.
fn check_input_fields(
    alloc: Global,
    types: &Types,
    input: &InputObject,
) -> Made<Option<SchemaError>>
    ensures { Tells result (input_fields_fault (types_of types.now) input.now) }
{
    for place in 0..input.len() {
        let (_, field) = input.entry(place);
        let found = check_input_field(alloc, types, input, field)?;
        if found.is_some() {
            return Ok(found);
        }
    }
    Ok(None)
}

/// The first fault of an input object, of which it is known whether it contains itself.
fn check_input_object(
    alloc: Global,
    types: &Types,
    contains: bool,
    input: &InputObject,
) -> Made<Option<SchemaError>>
    ensures { Tells result (input_object_fault (types_of types.now) contains input.now) }
{
    match fault_where(
        alloc,
        contains,
        SchemaRule::ContainsItself,
        "Input object \"",
        input.type_name(),
        "\" contains itself",
    )? {
        Some(fault) => Ok(Some(fault)),
        None => check_input_fields(alloc, types, input),
    }
}

/// The first fault of the parts of a type, of which it is known whether it contains itself.
fn check_parts(
    alloc: Global,
    types: &Types,
    contains: bool,
    ty: &SchemaType,
) -> Made<Option<SchemaError>>
    ensures { Tells result (parts_fault (types_of types.now) contains ty.now) }
{
    match ty {
        SchemaType::Object(object) => check_object(alloc, types, object),
        SchemaType::Interface(interface) => {
            check_fields(alloc, types, interface.type_name(), interface.fields())
        }
        SchemaType::Union(union_type) => check_union(alloc, types, union_type),
        SchemaType::InputObject(input) => check_input_object(alloc, types, contains, input),
        SchemaType::Subscription(subscription) => {
            check_fields(
                alloc,
                types,
                subscription.type_name(),
                subscription.fields(),
            )
        }
        SchemaType::Scalar(_) | SchemaType::Enum(_) => Ok(None),
    }
}

fn check_known(
    alloc: Global,
    types: &Types,
    contains: bool,
    ty: &SchemaType,
) -> Made<Option<SchemaError>>
    ensures { Tells result (fault_of (types_of types.now) contains ty.now) }
{
    match check_support(alloc, ty.name())? {
        Some(fault) => Ok(Some(fault)),
        None => check_parts(alloc, types, contains, ty),
    }
}

/// The first fault of a type, or none.
fn check_schema_type(
    alloc: Global,
    types: &Types,
    ranks: &[usize],
    ty: &SchemaType,
) -> Made<Option<SchemaError>>
    requires { AreRanks (types_of types.now) ranks.now }
    ensures { IfOk result (λ found. IsFaultOf (types_of types.now) ty.now found) }
{
    let contains = type_contains_itself(alloc, types, ranks, ty)?;
    check_known(alloc, types, contains, ty)
}

/// The fault of the first type that has one, or none.
pub fn first_refusal(alloc: Global, types: &Types) -> Made<Option<SchemaError>>
    ensures { IfOk result (λ found. IsFaultOfAll (types_of types.now) found) }
{
    let ranks = ranks_of(alloc, types)?;
    first_fault(alloc, types, ranks.as_slice())
}

/// The fault of the first type that has one, or none, over numbers of the types.
#[tactic(auto, using(crate::proofs::SoundLemmas::free_more, crate::proofs::SoundLemmas::refuses_here))]
fn first_fault(alloc: Global, types: &Types, ranks: &[usize]) -> Made<Option<SchemaError>>
    requires { AreRanks (types_of types.now) ranks.now }
    ensures { IfOk result (λ found. IsFaultOfAll (types_of types.now) found) }
{
    for place in 0..types.len() {
        let found = check_schema_type(alloc, types, ranks, types.at(place))?;
        if found.is_some() {
            return Ok(found);
        }
    }
    Ok(None)
}
