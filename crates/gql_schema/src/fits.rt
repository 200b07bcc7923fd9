ghost use Rattle.std.specs.Prelude.{◌≡◌};
ghost use Rattle.std.specs.Option.{option_copied};
ghost use Rattle.gql_schema.specs.Fits.{all_fit, are_given, declares, fills_field, fits};
ghost use Rattle.gql_schema.specs.Fits.{fits_field, fits_members};
ghost use Rattle.gql_schema.specs.Fits.{fits_whole, fitting, fittings, has_number, is_doubled};
ghost use Rattle.gql_schema.specs.Fits.{is_given, is_input_type};
ghost use Rattle.gql_schema.specs.Fits.{is_item, is_known_input, is_one, is_unsupported, item_type};
ghost use Rattle.gql_schema.specs.Fits.{nullable_of};
ghost use Rattle.gql_schema.specs.ScalarRule.{bare_of};
ghost use Rattle.gql_schema.specs.Table.{types_of};

use crate::input_object::InputObject;
use crate::input_value::InputValue;
use crate::name_set::NameSet;
use crate::schema_type::SchemaType;
use crate::types::Types;
use gql_base::{Pairs, TypeRef, Value};

/// True exactly where a value fits a type of inputs.
#[cycle(fitting)]
pub fn value_fits(value: &Value, ty: &TypeRef, types: &Types) -> bool
    ensures { result ≡ fits (types_of types.now) value.now ty.now }
{
    match value {
        Value::Null => ty.is_nullable(),
        Value::List(items) => match type_of_items(ty) {
            Some(item) => items_fit(items.as_slice(), item, types),
            None => fits_as_whole(types.get(ty.type_name()), value),
        },
        Value::Object(members) => match types.get(ty.type_name()) {
            Some(SchemaType::InputObject(input)) => members_fit(members, input, types),
            other => fits_as_whole(other, value),
        },
        Value::Boolean(_) | Value::Number(_) | Value::String(_) | Value::Enum(_) => {
            fits_as_whole(types.get(ty.type_name()), value)
        }
    }
}

#[cycle(fitting)]
fn items_fit(items: &[Value], item: &TypeRef, types: &Types) -> bool
    ensures { result ≡ all_fit (types_of types.now) items.now item.now }
{
    for value in items {
        if !value_fits(value, item, types) {
            return false;
        }
    }
    true
}

/// True exactly where an object with these members fits an input object.
#[cycle(fitting)]
fn members_fit(members: &Pairs<Value>, input: &InputObject, types: &Types) -> bool
    ensures { result ≡ fits_members (types_of types.now) input.now members.now }
{
    if !members_are_declared(members, input, types) {
        return false;
    }
    if !fields_are_given(members, input) {
        return false;
    }
    has_its_number(members, input, types)
}

#[cycle(fitting)]
fn members_are_declared(members: &Pairs<Value>, input: &InputObject, types: &Types) -> bool
    ensures { result ≡ declares (types_of types.now) input.now members.now }
{
    for place in 0..members.len() {
        let (name, value) = members.at(place);
        if !member_fits(value, input.get(name), types) {
            return false;
        }
    }
    true
}

#[cycle(fitting)]
fn member_fits(value: &Value, declared: Option<&InputValue>, types: &Types) -> bool
    ensures { result ≡ fits_field (types_of types.now) value.now (option_copied declared.entry) }
{
    match declared {
        Some(input) => stands_at_inputs(types, input.ty()) && value_fits(value, input.ty(), types),
        None => false,
    }
}

/// True exactly where there are as many members as a oneof input object has: one, which isn't null.
#[cycle(fitting)]
fn has_its_number(members: &Pairs<Value>, input: &InputObject, types: &Types) -> bool
    ensures { result ≡ has_number input.now (fittings (types_of types.now) members.now) }
{
    if input.is_oneof() {
        is_one_member(members, input, types)
    } else {
        true
    }
}

#[cycle(fitting)]
fn is_one_member(members: &Pairs<Value>, input: &InputObject, types: &Types) -> bool
    ensures { result ≡ is_one input.now (fittings (types_of types.now) members.now) }
{
    if members.len() != 1 {
        return false;
    }
    let (name, value) = members.at(0);
    is_non_null_member(value, input.get(name), types)
}

#[cycle(fitting)]
fn is_non_null_member(value: &Value, declared: Option<&InputValue>, types: &Types) -> bool
    ensures { result ≡ fills_field (types_of types.now) value.now (option_copied declared.entry) }
{
    match declared {
        Some(input) => match value {
            Value::Null => false,
            Value::Boolean(_)
            | Value::Number(_)
            | Value::String(_)
            | Value::Enum(_)
            | Value::List(_)
            | Value::Object(_) => value_fits(value, input.ty(), types),
        },
        None => false,
    }
}

/// True exactly where each field that can't be left out is among the members.
fn fields_are_given(members: &Pairs<Value>, input: &InputObject) -> bool
    ensures { result ≡ are_given input.now members.now }
{
    for place in 0..input.len() {
        let (name, field) = input.entry(place);
        if !field_is_given(members, name, field) {
            return false;
        }
    }
    true
}

fn field_is_given(members: &Pairs<Value>, name: &str, field: &InputValue) -> bool
    ensures { result ≡ is_given members.now (name.now, field.now) }
{
    field.ty().is_nullable() || field.default().is_some() || members.get(name).is_some()
}

/// True exactly where a value other than null fits a type that takes values whole.
fn fits_as_whole(ty: Option<&SchemaType>, value: &Value) -> bool
    ensures { result ≡ fits_whole (option_copied ty.entry) (bare_of value.now) }
{
    match ty {
        Some(SchemaType::Scalar(scalar)) => scalar.taking().takes(value),
        Some(SchemaType::Enum(items)) => is_item_of(items.items(), value),
        _ => false,
    }
}

fn is_item_of(items: &NameSet, value: &Value) -> bool
    ensures { result ≡ is_item items.now (bare_of value.now) }
{
    match value {
        Value::String(text) => items.has(text.as_str()),
        Value::Enum(name) => items.has(name.as_str()),
        _ => false,
    }
}

/// The type of the items of a list, or none where the type is no list.
pub fn type_of_items(ty: &TypeRef) -> Option<&TypeRef>
    ensures { option_copied result ≡ item_type ty.now }
{
    match nullable(ty) {
        TypeRef::List(inner) => Some(inner.get()),
        _ => None,
    }
}

/// True exactly where the type may stand at an input.
pub fn stands_at_inputs(types: &Types, ty: &TypeRef) -> bool
    ensures { result ≡ is_input_type (types_of types.now) ty.now }
{
    let name = ty.type_name();
    !has_no_support(name) && is_known_kind(types.get(name)) && !is_doubly_non_null(ty)
}

/// True exactly where no type may have this name.
pub fn has_no_support(name: &str) -> bool
    ensures { result ≡ is_unsupported name.now }
{
    name == "Float" || name == "Upload"
}

/// True exactly where there is a type of a kind that stands at inputs.
pub fn is_known_kind(ty: Option<&SchemaType>) -> bool
    ensures { result ≡ is_known_input (option_copied ty.entry) }
{
    match ty {
        Some(SchemaType::Scalar(_) | SchemaType::Enum(_) | SchemaType::InputObject(_)) => true,
        _ => false,
    }
}

/// True exactly where somewhere in the type a non-null stands in a non-null.
pub fn is_doubly_non_null(ty: &TypeRef) -> bool
    ensures { result ≡ is_doubled ty.now }
{
    match ty {
        TypeRef::Named(_) => false,
        TypeRef::List(inner) => is_doubly_non_null(inner.get()),
        TypeRef::NonNull(inner) => match inner.get() {
            TypeRef::Named(_) => false,
            TypeRef::NonNull(_) => true,
            TypeRef::List(items) => is_doubly_non_null(items.get()),
        },
    }
}

/// What a non-null type is of, and any other type itself.
pub fn nullable(ty: &TypeRef) -> &TypeRef
    ensures { result.now ≡ nullable_of ty.now }
{
    match ty {
        TypeRef::NonNull(inner) => inner.get(),
        _ => ty,
    }
}
