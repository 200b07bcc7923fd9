//! A schema for a cell.
use gql_base::{Made, Number, TypeRef, Value};
use gql_exec::{Schema, SchemaBuilder, SchemaBuilderExt};
use gql_schema::{Field, InputValue, Object, SchemaType};
use std::alloc::{AllocError, Global};

/// The type `Int`.
fn int(alloc: Global) -> Made<TypeRef> {
    TypeRef::named(alloc, "Int")
}

/// The argument `by: Int` with this default.
fn by(alloc: Global, default: i64) -> Made<InputValue> {
    let by = InputValue::new(alloc, "by", int(alloc)?)?;
    Ok(by.default_value(Value::Number(Number::from_i64(default))))
}

/// The field `cell: Int`, which resolver 0 answers.
fn cell(alloc: Global) -> Made<Field> {
    Field::new(alloc, "cell", int(alloc)?, 0)
}

/// The field `bump: Int` with an argument, which resolver 1 answers.
fn bump(alloc: Global, by: InputValue) -> Made<Field> {
    Field::new(alloc, "bump", int(alloc)?, 1)?.argument(alloc, by)
}

/// An object type of one field.
fn object(alloc: Global, name: &str, field: Field) -> Made<SchemaType> {
    Ok(SchemaType::Object(Object::new(alloc, name)?.field(alloc, field)?))
}

/// The type `Query`.
fn query(alloc: Global) -> Made<SchemaType> {
    object(alloc, "Query", cell(alloc)?)
}

/// The type `Mutation`, where the argument of its field has this default.
fn mutation(alloc: Global, default: i64) -> Made<SchemaType> {
    let by = by(alloc, default)?;
    object(alloc, "Mutation", bump(alloc, by)?)
}

/// A builder of a schema with both types.
fn builder(alloc: Global, default: i64) -> Made<SchemaBuilder> {
    let builder = Schema::build(alloc, "Query", Some("Mutation"), None)?;
    let builder = builder.register(alloc, query(alloc)?)?;
    builder.register(alloc, mutation(alloc, default)?)
}

/// The schema `type Query { cell: Int } type Mutation { bump(by: Int = default): Int }`. Of a
/// refused one comes an error, so that the test fails.
pub fn schema(alloc: Global, default: i64) -> Made<Schema> {
    match builder(alloc, default)?.finish(alloc)? {
        Ok(schema) => Ok(schema),
        Err(_) => Err(AllocError),
    }
}
