//! What values come to at the types of a table by their names (GraphQL, October 2021, sections 3.5
//! to 3.9 and 6.4.3).
ghost use Rattle.std.specs.Prelude.{◌≡◌, IfOk, Some, option_and_then};
ghost use Rattle.std.specs.Option.{option_copied};
ghost use Rattle.gql_base.specs.Kinds.{enum_name_of, is_null};
ghost use Rattle.gql_base.specs.Pairs.{under};
ghost use Rattle.gql_meaning.specs.Completion.{at_enum, at_scalar, at_type, fault, no_item};
ghost use Rattle.gql_meaning.specs.Completion.{no_scalar, shown, shown_number, unless_null};
ghost use Rattle.gql_resolve.specs.FieldValue.{value_in};
ghost use Rattle.gql_schema.specs.Enum.{items_of};
ghost use Rattle.gql_schema.specs.Scalar.{rule_of};
ghost use Rattle.gql_schema.specs.Table.{types_of};
ghost use Rattle.gql_schema.specs.TableReading.{is_known_object};
ghost use Rattle.gql_complete.specs.CompleteValue.{item_at, leaf_at};

use crate::complete_abstract::{AbstractKind, complete_abstract};
use crate::faults::fault_of_three;
use crate::known::Known;
use gql_base::{Made, Name, Number, Text, Value};
use gql_place::Shape;
use gql_resolve::FieldValue;
use gql_schema::{Enum, Scalar, SchemaType};
use std::alloc::Global;

/// What a value comes to at the type of a name.
pub(crate) fn complete_named<V: Drop>(
    alloc: Global,
    known: &Known<'_>,
    given: FieldValue<V>,
) -> Made<Shape<Name, FieldValue<V>>>
    ensures { IfOk result (λ shape. shape ≡ at_type (types_of known.now.types.now)
        known.now.name.now (under known.now.name.now (types_of known.now.types.now)) given) }
{
    let Known { types, name, ty } = *known;
    match ty {
        Some(SchemaType::Scalar(scalar)) => complete_scalar(alloc, name, scalar, given),
        Some(SchemaType::Enum(enum_type)) => complete_enum(alloc, name, enum_type, given),
        Some(SchemaType::Object(_)) => Ok(Shape::Object(Name::new(alloc, name)?, given)),
        Some(SchemaType::Interface(_)) => {
            complete_abstract(alloc, types, AbstractKind::Interface, name, given)
        }
        Some(SchemaType::Union(_)) => {
            complete_abstract(alloc, types, AbstractKind::Union, name, given)
        }
        Some(SchemaType::InputObject(_)) => Ok(Shape::Absent),
        Some(SchemaType::Subscription(_)) => Ok(Shape::Absent),
        None => Ok(Shape::Absent),
    }
}

/// A scalar has the values that its rule takes.
fn complete_scalar<V: Drop>(
    alloc: Global,
    name: &str,
    scalar: &Scalar,
    given: FieldValue<V>,
) -> Made<Shape<Name, FieldValue<V>>>
    ensures { IfOk result (λ shape. shape ≡ unless_null given
        (at_scalar name.now (rule_of scalar.now) (value_in given))) }
{
    match given {
        FieldValue::Value(value) => complete_leaf(alloc, name, scalar, value),
        FieldValue::Own(_) => scalar_fault(alloc, name),
        FieldValue::List(_) => scalar_fault(alloc, name),
        FieldValue::WithType { value: _, ty: _ } => scalar_fault(alloc, name),
    }
}

/// A value at a scalar: null is absent.
fn complete_leaf<V: Drop>(
    alloc: Global,
    name: &str,
    scalar: &Scalar,
    value: Value,
) -> Made<Shape<Name, FieldValue<V>>>
    ensures { IfOk result (λ shape. shape ≡ leaf_at name.now (rule_of scalar.now) value) }
{
    if is_null_value(&value) {
        return Ok(Shape::Absent);
    }
    if scalar.taking().takes(&value) {
        return Ok(Shape::Leaf(show(alloc, name, value)?));
    }
    scalar_fault(alloc, name)
}

/// The value that a leaf shows: a number of the type `ID` is shown as its decimal text.
fn show(alloc: Global, name: &str, value: Value) -> Made<Value>
    ensures { IfOk result (λ made. made ≡ shown name.now value) }
{
    match value {
        Value::Number(number) => show_number(alloc, name, number),
        other => Ok(other),
    }
}

/// The same of a number.
fn show_number(alloc: Global, name: &str, number: Number) -> Made<Value>
    ensures { IfOk result (λ made. made ≡ shown_number name.now number) }
{
    if name == "ID" {
        let text = format!(in alloc; "{number}")?;
        return Ok(Value::String(Text::from_string(text)?));
    }
    Ok(Value::Number(number))
}

/// An enum has its items, by their names or as strings.
fn complete_enum<V: Drop>(
    alloc: Global,
    name: &str,
    enum_type: &Enum,
    given: FieldValue<V>,
) -> Made<Shape<Name, FieldValue<V>>>
    ensures { IfOk result (λ shape. shape ≡ unless_null given
        (at_enum name.now (items_of enum_type.now)
        (option_and_then enum_name_of (value_in given)))) }
{
    match given {
        FieldValue::Value(value) => complete_item(alloc, name, enum_type, value),
        FieldValue::Own(_) => enum_fault(alloc, name),
        FieldValue::List(_) => enum_fault(alloc, name),
        FieldValue::WithType { value: _, ty: _ } => enum_fault(alloc, name),
    }
}

/// A value at an enum: null is absent.
fn complete_item<V: Drop>(
    alloc: Global,
    name: &str,
    enum_type: &Enum,
    value: Value,
) -> Made<Shape<Name, FieldValue<V>>>
    ensures { IfOk result (λ shape. shape ≡ item_at name.now (items_of enum_type.now) value) }
{
    match value {
        Value::Null => Ok(Shape::Absent),
        Value::Enum(item) => complete_name(alloc, name, enum_type, item),
        Value::String(item) => complete_name(alloc, name, enum_type, Name::from_text(item)),
        _ => enum_fault(alloc, name),
    }
}

/// The item of a name.
fn complete_name<V: Drop>(
    alloc: Global,
    name: &str,
    enum_type: &Enum,
    item: Name,
) -> Made<Shape<Name, FieldValue<V>>>
    ensures { IfOk result (λ shape. shape ≡ at_enum name.now (items_of enum_type.now) (Some item)) }
{
    if enum_type.items().has(item.as_str()) {
        return Ok(Shape::Leaf(Value::Enum(item)));
    }
    enum_fault(alloc, name)
}

/// Whether an object type was looked up.
pub(crate) fn is_object(ty: Option<&SchemaType>) -> bool
    ensures { result ≡ is_known_object (option_copied ty.entry) }
{
    match ty {
        Some(SchemaType::Object(_)) => true,
        _ => false,
    }
}

/// Whether a value is null.
pub(crate) fn is_null_value(value: &Value) -> bool
    ensures { result ≡ is_null value.now }
{
    matches!(value, Value::Null)
}

/// What is given is no value of the scalar.
fn scalar_fault<V: Drop>(alloc: Global, name: &str) -> Made<Shape<Name, FieldValue<V>>>
    ensures { IfOk result (λ shape. shape ≡ fault (no_scalar name.now)) }
{
    let first = "internal: invalid value for scalar \"";
    fault_of_three(alloc, first, name, "\", expected \"FieldValue::Value\"")
}

/// What is given is no item of the enum.
fn enum_fault<V: Drop>(alloc: Global, name: &str) -> Made<Shape<Name, FieldValue<V>>>
    ensures { IfOk result (λ shape. shape ≡ fault (no_item name.now)) }
{
    fault_of_three(alloc, "internal: invalid item for enum \"", name, "\"")
}
