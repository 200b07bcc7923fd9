//! Results that come to the data that they are as they stand: leaves, null where it may stand, and
//! lists of such. They are known by one look, and need no completion (GraphQL, October 2021,
//! section 6.4.3).
ghost use Rattle.std.specs.Prelude.{◌≡◌, IsTrue, Some, map};
ghost use Rattle.gql_base.specs.Pairs.{under};
ghost use Rattle.gql_base.specs.TypeRef.{innermost};
ghost use Rattle.gql_base.specs.declared.type_ref.TypeRef.TheVariants as ref;
ghost use Rattle.gql_meaning.specs.Completion.{at_scalar, at_type, completed, required, shape_of};
ghost use Rattle.gql_meaning.specs.Completion.{shown, unless_null};
ghost use Rattle.gql_place.specs.Raised.{all_items};
ghost use Rattle.gql_resolve.specs.FieldValue.{value_in};
ghost use Rattle.gql_resolve.specs.declared.field_value.FieldValue.TheVariants as kind;
ghost use Rattle.gql_schema.specs.Scalar.{rule_of};
ghost use Rattle.gql_schema.specs.Table.{types_of};
ghost use Rattle.gql_complete.specs.CompleteValue.{IsShown, data_given, data_in, value_or_null};
ghost use Rattle.gql_complete.specs.Data.{IsData, data_at};

use crate::complete_named::is_null_value;
use crate::known::Known;
use gql_base::{Error, TypeRef, Value};
use gql_resolve::FieldValue;
use gql_schema::{Scalar, SchemaType};

/// Whether a resolver's result comes to the data that it is as it stands.
pub fn is_data<V>(
    known: &Known<'_>,
    ty: &TypeRef,
    outcome: &Result<Option<FieldValue<V>>, Error>,
) -> bool
    requires { known.now.name.now ≡ innermost ty.now }
    ensures { IsTrue result → IsData
        (shape_of (types_of known.now.types.now) ty.now outcome.now) (data_in outcome.now) }
{
    match outcome {
        Ok(Some(given)) => is_data_given(known, ty, given),
        _ => false,
    }
}

/// The same of what is given at a type.
#[tactic(auto, using(crate::proofs::DataLemmas::data_of_value))]
fn is_data_given<V>(known: &Known<'_>, ty: &TypeRef, given: &FieldValue<V>) -> bool
    requires { known.now.name.now ≡ innermost ty.now }
    ensures { IsTrue result → IsData (completed (types_of known.now.types.now) ty.now
        (Some given.now)) (value_or_null (value_in given.now)) }
{
    match given {
        FieldValue::Value(value) => is_data_value::<V>(known, ty, value),
        _ => false,
    }
}

/// The same of a value.
#[cycle(data)]
fn is_data_value<V>(known: &Known<'_>, ty: &TypeRef, value: &Value) -> bool
    requires { known.now.name.now ≡ innermost ty.now }
    ensures { IsTrue result
        → data_at V (types_of known.now.types.now) ty.now value.now ≡ Some value.now }
{
    match ty {
        TypeRef::Named(_) => is_data_named::<V>(known, value),
        TypeRef::NonNull(inner) => is_data_non_null::<V>(known, inner.get(), value),
        TypeRef::List(inner) => is_data_list::<V>(known, inner.get(), value),
    }
}

/// The same of a value at the type of a name.
fn is_data_named<V>(known: &Known<'_>, value: &Value) -> bool
    ensures { IsTrue result → IsData {V = V} (at_type (types_of known.now.types.now)
        known.now.name.now (under known.now.name.now (types_of known.now.types.now))
        (kind.Value value.now)) value.now }
{
    match known.ty {
        Some(SchemaType::Scalar(scalar)) => is_data_scalar::<V>(known.name, scalar, value),
        _ => false,
    }
}

/// The same of a value at a scalar, where null may stand.
fn is_data_scalar<V>(name: &str, scalar: &Scalar, value: &Value) -> bool
    ensures { IsTrue result → IsData {V = V} (unless_null (kind.Value value.now)
        (at_scalar name.now (rule_of scalar.now) (value_in {V = V} (kind.Value value.now))))
        value.now }
{
    match value {
        Value::Null => true,
        _ => is_leaf_value(name, scalar, value),
    }
}

/// The same of a value where null may not stand.
#[cycle(data)]
fn is_data_non_null<V>(known: &Known<'_>, inner: &TypeRef, value: &Value) -> bool
    requires { known.now.name.now ≡ innermost inner.now }
    ensures { IsTrue result → IsData {V = V} (required (completed
        (types_of known.now.types.now) inner.now (Some (kind.Value value.now)))) value.now }
{
    if is_null_value(value) {
        return false;
    }
    is_data_value::<V>(known, inner, value)
}

/// The same of a value at a list of a type.
#[cycle(data)]
fn is_data_list<V>(known: &Known<'_>, inner: &TypeRef, value: &Value) -> bool
    requires { known.now.name.now ≡ innermost inner.now }
    ensures { IsTrue result → IsData {V = V} (completed (types_of known.now.types.now)
        (ref.List inner.now) (Some (kind.Value value.now))) value.now }
{
    match value {
        Value::Null => true,
        Value::List(items) => are_data::<V>(known, inner, items.as_slice()),
        _ => false,
    }
}

/// The same of each of some values.
#[cycle(data)]
fn are_data<V>(known: &Known<'_>, ty: &TypeRef, values: &[Value]) -> bool
    requires { known.now.name.now ≡ innermost ty.now }
    ensures { IsTrue result
        → all_items (map (data_at V (types_of known.now.types.now) ty.now) values.now)
        ≡ Some values.now }
{
    for value in values {
        if !is_data_value::<V>(known, ty, value) {
            return false;
        }
    }
    true
}

/// Whether a value is a leaf of a scalar as it stands.
fn is_leaf_value(name: &str, scalar: &Scalar, value: &Value) -> bool
    ensures { IsTrue result → IsShown name.now (rule_of scalar.now) value.now }
{
    !is_null_value(value) && scalar.taking().takes(value) && is_shown(name, value)
}

/// Whether a leaf shows a value as it stands.
fn is_shown(name: &str, value: &Value) -> bool
    ensures { IsTrue result → shown name.now value.now ≡ value.now }
{
    match value {
        Value::Number(_) => name != "ID",
        _ => true,
    }
}

/// The value that a result gives, where it is data as it stands.
pub fn data_in<V: Drop>(outcome: Result<Option<FieldValue<V>>, Error>) -> Value
    ensures { result ≡ data_in outcome }
{
    match outcome {
        Ok(given) => data_given(given),
        Err(_) => Value::Null,
    }
}

fn data_given<V: Drop>(given: Option<FieldValue<V>>) -> Value
    ensures { result ≡ data_given given }
{
    match given {
        Some(given) => value_or_null(given),
        None => Value::Null,
    }
}

fn value_or_null<V: Drop>(given: FieldValue<V>) -> Value
    ensures { result ≡ value_or_null (value_in given) }
{
    match given {
        FieldValue::Value(value) => value,
        FieldValue::Own(_) => Value::Null,
        FieldValue::List(_) => Value::Null,
        FieldValue::WithType { value: _, ty: _ } => Value::Null,
    }
}
