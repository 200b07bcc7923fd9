//! CompleteValue (GraphQL, October 2021, section 6.4.3): what an answer comes to by the type of its
//! field.
ghost use Rattle.std.specs.Prelude.{◌≡◌, map, IfOk, Some};
ghost use Rattle.gql_base.specs.TypeRef.{innermost};
ghost use Rattle.gql_base.specs.declared.type_ref.TypeRef.TheVariants as ref;
ghost use Rattle.gql_resolve.specs.declared.field_value.FieldValue.TheVariants as kind;
ghost use Rattle.gql_schema.specs.Table.{types_of};
ghost use Rattle.gql_meaning.specs.Completion.{completed, completing, required, shape_of};
ghost use Rattle.gql_complete.specs.CompleteValue.{listed};

use crate::complete_named::complete_named;
use crate::faults::fault_of;
use crate::known::Known;
use gql_base::{Error, Items, Made, Name, TypeRef, Value};
use gql_place::Shape;
use gql_resolve::FieldValue;
use std::alloc::Global;

/// What a resolver's result comes to at a type, where the innermost name of the type was looked up:
/// an object has its type's name, and the value that its fields are asked of.
pub fn complete_known<V: Drop>(
    alloc: Global,
    known: &Known<'_>,
    ty: &TypeRef,
    outcome: Result<Option<FieldValue<V>>, Error>,
) -> Made<Shape<Name, FieldValue<V>>>
    requires { known.now.name.now ≡ innermost ty.now }
    ensures { IfOk result (λ shape. shape
        ≡ shape_of (types_of known.now.types.now) ty.now outcome) }
{
    match outcome {
        Err(error) => Ok(Shape::Fault(error)),
        Ok(given) => complete(alloc, ty, known, given),
    }
}

/// What a value, if any, comes to at a type.
#[cycle(complete)]
fn complete<V: Drop>(
    alloc: Global,
    ty: &TypeRef,
    known: &Known<'_>,
    given: Option<FieldValue<V>>,
) -> Made<Shape<Name, FieldValue<V>>>
    requires { known.now.name.now ≡ innermost ty.now }
    ensures { IfOk result (λ shape. shape ≡ completed (types_of known.now.types.now) ty.now given) }
{
    match ty {
        TypeRef::Named(_) => match given {
            None => Ok(Shape::Absent),
            Some(given) => complete_named(alloc, known, given),
        },
        TypeRef::NonNull(inner) => require(alloc, complete(alloc, inner.get(), known, given)?),
        TypeRef::List(inner) => match given {
            None => Ok(Shape::Absent),
            Some(given) => complete_list(alloc, inner.get(), known, given),
        },
    }
}

/// What is absent where a value is due is a fault.
fn require<V: Drop>(
    alloc: Global,
    shape: Shape<Name, FieldValue<V>>,
) -> Made<Shape<Name, FieldValue<V>>>
    ensures { IfOk result (λ made. made ≡ required shape) }
{
    match shape {
        Shape::Absent => fault_of(alloc, "internal: non-null types require a return value"),
        Shape::Leaf(value) => Ok(Shape::Leaf(value)),
        Shape::Fault(error) => Ok(Shape::Fault(error)),
        Shape::Object(object, parent) => Ok(Shape::Object(object, parent)),
        Shape::List(non_null, items) => Ok(Shape::List(non_null, items)),
    }
}

/// What a value comes to at the lists of a type: a list, or a value that is one, has its items
/// completed.
#[cycle(complete)]
fn complete_list<V: Drop>(
    alloc: Global,
    inner: &TypeRef,
    known: &Known<'_>,
    given: FieldValue<V>,
) -> Made<Shape<Name, FieldValue<V>>>
    requires { known.now.name.now ≡ innermost inner.now }
    ensures { IfOk result (λ shape. shape
        ≡ completed (types_of known.now.types.now) (ref.List inner.now) (Some given)) }
{
    match given {
        FieldValue::List(items) => complete_items(alloc, inner, known, items),
        FieldValue::Value(value) => complete_list_value(alloc, inner, known, value),
        FieldValue::Own(_) => fault_of(alloc, "internal: expects an array"),
        FieldValue::WithType { value: _, ty: _ } => fault_of(alloc, "internal: expects an array"),
    }
}

#[cycle(complete)]
fn complete_list_value<V: Drop>(
    alloc: Global,
    inner: &TypeRef,
    known: &Known<'_>,
    value: Value,
) -> Made<Shape<Name, FieldValue<V>>>
    requires { known.now.name.now ≡ innermost inner.now }
    ensures { IfOk result (λ shape. shape
        ≡ completed (types_of known.now.types.now) (ref.List inner.now) (Some (kind.Value value))) }
{
    match value {
        Value::Null => Ok(Shape::Absent),
        Value::List(items) => complete_values(alloc, inner, known, items.into_inner(alloc)?),
        _ => fault_of(alloc, "internal: expects an array"),
    }
}

/// The items of a list, each completed.
#[cycle(complete)]
fn complete_items<V: Drop>(
    alloc: Global,
    inner: &TypeRef,
    known: &Known<'_>,
    items: Items<FieldValue<V>>,
) -> Made<Shape<Name, FieldValue<V>>>
    requires { known.now.name.now ≡ innermost inner.now }
    ensures { IfOk result (λ shape. shape
        ≡ listed (completing (types_of known.now.types.now) inner.now) items) }
{
    let shapes = complete_each(alloc, inner, known, items)?;
    Ok(Shape::List(!inner.is_nullable(), shapes))
}

#[cycle(complete)]
fn complete_each<V: Drop>(
    alloc: Global,
    inner: &TypeRef,
    known: &Known<'_>,
    items: Items<FieldValue<V>>,
) -> Made<Items<Shape<Name, FieldValue<V>>>>
    requires { known.now.name.now ≡ innermost inner.now }
    ensures { IfOk result (λ shapes. shapes
        ≡ map (λ item. completed (types_of known.now.types.now) inner.now (Some item)) items) }
{
    let mut shapes = Items::with_capacity(alloc, items.len())?;
    for item in items.into_vec() {
        shapes.push(complete(alloc, inner, known, Some(item))?)?;
    }
    Ok(shapes)
}

/// The items of a value that is a list, each completed.
#[cycle(complete)]
fn complete_values<V: Drop>(
    alloc: Global,
    inner: &TypeRef,
    known: &Known<'_>,
    items: Items<Value>,
) -> Made<Shape<Name, FieldValue<V>>>
    requires { known.now.name.now ≡ innermost inner.now }
    ensures { IfOk result (λ shape. shape
        ≡ listed (completing (types_of known.now.types.now) inner.now) (map kind.Value items)) }
{
    let shapes = complete_each_value(alloc, inner, known, items)?;
    Ok(Shape::List(!inner.is_nullable(), shapes))
}

#[cycle(complete)]
fn complete_each_value<V: Drop>(
    alloc: Global,
    inner: &TypeRef,
    known: &Known<'_>,
    items: Items<Value>,
) -> Made<Items<Shape<Name, FieldValue<V>>>>
    requires { known.now.name.now ≡ innermost inner.now }
    ensures { IfOk result (λ shapes. shapes
        ≡ map (λ item. completed (types_of known.now.types.now) inner.now
        (Some (kind.Value item))) items) }
{
    let mut shapes = Items::with_capacity(alloc, items.len())?;
    for item in items.into_vec() {
        let given = Some(FieldValue::Value(item));
        shapes.push(complete(alloc, inner, known, given)?)?;
    }
    Ok(shapes)
}
