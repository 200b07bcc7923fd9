//! A sample of types: the objects `Query { value: Int, o: A, p: A, n: I, u: U }`, `A { a: Int }`, `B`
//! and `C`, where `A` and `B` implement the interface `I`, and `A` and `C` are in the union `U`; and
//! what the tests read of it.
ghost use Rattle.std.specs.Prelude.{◌≡◌, IfOk};
ghost use Rattle.gql_schema.specs.Field.{field_name};

use gql_base::{Made, Name, Number, Pairs, TypeRef, Value, Variables};
use gql_doc::{ExecutableDocument, parse_query};
use gql_schema::{Field, Interface, Object, Scalar, ScalarRule, SchemaType, Types, Union};
use std::alloc::{AllocError, Global};

/// The fields of `Query`, each with the name of its type.
const QUERY: [(&str, &str); 5] = [
    ("value", "Int"),
    ("o", "A"),
    ("p", "A"),
    ("n", "I"),
    ("u", "U"),
];

/// A field of a named type.
fn field(alloc: Global, name: &str, ty: &str) -> Made<Field>
    ensures { IfOk result (λ field. field_name field ≡ name.now) }
{
    Field::new(alloc, name, TypeRef::named(alloc, ty)?, 0)
}

/// Adds a field, unless there is one of its name.
fn with(alloc: Global, object: Object, name: &str, ty: &str) -> Made<Object> {
    let field = field(alloc, name, ty)?;
    if object.has_field(name) {
        return Ok(object);
    }
    object.field(alloc, field)
}

fn query_type(alloc: Global) -> Made<SchemaType> {
    let mut object = Object::new(alloc, "Query")?;
    for (name, ty) in &QUERY {
        object = with(alloc, object, *name, *ty)?;
    }
    Ok(SchemaType::Object(object))
}

/// An object that implements `I` and has the field `a`.
fn node_type(alloc: Global, name: &str) -> Made<SchemaType> {
    let object = Object::new(alloc, name)?.implement(alloc, "I")?;
    Ok(SchemaType::Object(with(alloc, object, "a", "Int")?))
}

fn union_type(alloc: Global) -> Made<SchemaType> {
    let union_type = Union::new(alloc, "U")?
        .possible_type(alloc, "A")?
        .possible_type(alloc, "C")?;
    Ok(SchemaType::Union(union_type))
}

fn add_scalar(alloc: Global, types: &mut Types, name: &str, rule: ScalarRule) -> Made<()> {
    let scalar = Scalar::new(alloc, name)?.rule(rule);
    types.register(alloc, SchemaType::Scalar(scalar))
}

pub(crate) fn types(alloc: Global) -> Made<Types> {
    let mut types = Types::new(alloc);
    add_scalar(alloc, &mut types, "Int", ScalarRule::Int)?;
    add_scalar(alloc, &mut types, "String", ScalarRule::Text)?;
    add_scalar(alloc, &mut types, "Boolean", ScalarRule::Bool)?;
    types.register(alloc, query_type(alloc)?)?;
    types.register(alloc, node_type(alloc, "A")?)?;
    types.register(alloc, node_type(alloc, "B")?)?;
    types.register(alloc, SchemaType::Object(Object::new(alloc, "C")?))?;
    types.register(alloc, SchemaType::Interface(Interface::new(alloc, "I")?))?;
    types.register(alloc, union_type(alloc)?)?;
    Ok(types)
}

/// The document of a text. Of a text that is none comes an error, so that the test fails.
pub(crate) fn document_of(alloc: Global, text: &str) -> Made<ExecutableDocument> {
    match parse_query(alloc, text)? {
        Ok(document) => Ok(document),
        Err(_) => Err(AllocError),
    }
}

/// The variables `$on`, which is true, and `$no`, which is 1.
pub(crate) fn variables(alloc: Global) -> Made<Variables> {
    let mut members = Pairs::new(alloc);
    members.add(Name::new(alloc, "on")?, Value::Boolean(true))?;
    members.add(Name::new(alloc, "no")?, Value::Number(Number::from_i64(1)))?;
    let members = Value::object(alloc, members)?;
    Ok(Variables::from_value(alloc, members))
}
