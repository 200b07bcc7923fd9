//! What values come to at interfaces and unions (GraphQL, October 2021, sections 3.7, 3.8 and
//! 6.4.3): the object whose name is given beside a value, where the type can be that object.
ghost use Rattle.std.specs.Prelude.{◌≡◌, IfOk};
ghost use Rattle.gql_meaning.specs.Completion.{at_abstract, fault, is_possible, named_in};
ghost use Rattle.gql_meaning.specs.Completion.{unless_null};
ghost use Rattle.gql_schema.specs.Table.{types_of};
ghost use Rattle.gql_complete.specs.CompleteAbstract.{texts_of};
ghost use Rattle.gql_complete.specs.CompleteValue.{absent_if_null};

use crate::complete_named::{is_null_value, is_object};
use crate::faults::{fault_of_five, fault_of_three};
use gql_base::{Made, Name, Value};
use gql_place::Shape;
use gql_resolve::FieldValue;
use gql_schema::Types;
use std::alloc::Global;

/// The kind of a type that can be several objects.
#[derive(Clone, Copy)]
pub(crate) enum AbstractKind {
    Interface,
    Union,
}

/// The object of which a value is, where its name is given and the type can be it.
pub(crate) fn complete_abstract<V: Drop>(
    alloc: Global,
    types: &Types,
    kind: AbstractKind,
    name: &str,
    given: FieldValue<V>,
) -> Made<Shape<Name, FieldValue<V>>>
    ensures { IfOk result (λ shape. shape ≡ unless_null given
        (at_abstract (types_of types.now) name.now (texts_of kind name.now) (named_in given))) }
{
    match given {
        FieldValue::WithType { value, ty } => {
            if is_possible_object(types, name, ty.as_str()) {
                return Ok(Shape::Object(ty, value.into_inner()));
            }
            foreign_object(alloc, kind, name, ty.as_str())
        }
        FieldValue::Value(value) => complete_unnamed(alloc, kind, name, &value),
        FieldValue::Own(_) => unnamed_object(alloc, kind, name),
        FieldValue::List(_) => unnamed_object(alloc, kind, name),
    }
}

/// Whether an object of the table is one of those that a type can be.
fn is_possible_object(types: &Types, name: &str, object: &str) -> bool
    ensures { result ≡ is_possible (types_of types.now) name.now object.now }
{
    is_object(types.get(object)) && types.covers(Some(name), object)
}

/// A value without the name of its object: null is absent.
fn complete_unnamed<V: Drop>(
    alloc: Global,
    kind: AbstractKind,
    name: &str,
    value: &Value,
) -> Made<Shape<Name, FieldValue<V>>>
    ensures { IfOk result (λ shape. shape
        ≡ absent_if_null value.now (fault (texts_of kind name.now).unnamed)) }
{
    if is_null_value(value) {
        return Ok(Shape::Absent);
    }
    unnamed_object(alloc, kind, name)
}

/// What is given names no object.
fn unnamed_object<V: Drop>(
    alloc: Global,
    kind: AbstractKind,
    name: &str,
) -> Made<Shape<Name, FieldValue<V>>>
    ensures { IfOk result (λ shape. shape ≡ fault (texts_of kind name.now).unnamed) }
{
    let last = "\", expected \"FieldValue::WithType\"";
    match kind {
        AbstractKind::Interface => {
            fault_of_three(
                alloc,
                "internal: invalid value for interface \"",
                name,
                last,
            )
        }
        AbstractKind::Union => {
            fault_of_three(alloc, "internal: invalid value for union \"", name, last)
        }
    }
}

/// The object that is named is none that the type can be.
fn foreign_object<V: Drop>(
    alloc: Global,
    kind: AbstractKind,
    name: &str,
    object: &str,
) -> Made<Shape<Name, FieldValue<V>>>
    ensures { IfOk result (λ shape. shape ≡ fault ((texts_of kind name.now).foreign object.now)) }
{
    match kind {
        AbstractKind::Interface => fault_of_five(
            alloc,
            "internal: object \"",
            object,
            "\" does not implement interface \"",
            name,
        ),
        AbstractKind::Union => fault_of_five(
            alloc,
            "internal: union \"",
            name,
            "\" does not contain object \"",
            object,
        ),
    }
}
