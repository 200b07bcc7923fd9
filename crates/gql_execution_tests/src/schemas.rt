//! Object types by rows, and schemas of two of them.
ghost use Rattle.std.specs.Prelude.{◌≡◌, IfOk};
ghost use Rattle.gql_schema.specs.Field.{field_name};

use gql_base::{Made, TypeRef};
use gql_doc::parse_type;
use gql_exec::{Schema, SchemaBuilder, SchemaBuilderExt};
use gql_schema::{Field, Object, SchemaType};
use std::alloc::{AllocError, Global};

/// A field: its name, its type and its resolver.
pub type Row = (&'static str, &'static str, u32);

/// The type of a text. Of a text that spells none comes an error, so that the test fails.
fn type_of(alloc: Global, text: &str) -> Made<TypeRef> {
    match parse_type(alloc, text)? {
        Ok(ty) => Ok(ty),
        Err(_) => Err(AllocError),
    }
}

fn field(alloc: Global, name: &str, ty: TypeRef, resolver: u32) -> Made<Field>
    ensures { IfOk result (λ field. field_name field ≡ name.now) }
{
    Field::new(alloc, name, ty, resolver)
}

/// Adds a field with this resolver, unless there is one of its name.
pub fn with(alloc: Global, object: Object, name: &str, ty: TypeRef, resolver: u32) -> Made<Object> {
    let field = field(alloc, name, ty, resolver)?;
    if object.has_field(name) {
        return Ok(object);
    }
    object.field(alloc, field)
}

fn with_row(alloc: Global, object: Object, row: &Row) -> Made<Object> {
    let (name, ty, resolver) = row;
    let ty = type_of(alloc, *ty)?;
    with(alloc, object, *name, ty, *resolver)
}

/// An object type of these fields.
pub fn object(alloc: Global, name: &str, rows: &[Row]) -> Made<Object> {
    let mut object = Object::new(alloc, name)?;
    for row in rows {
        object = with_row(alloc, object, row)?;
    }
    Ok(object)
}

/// A builder with an object type of these fields, too.
pub fn with_object(
    alloc: Global,
    builder: SchemaBuilder,
    name: &str,
    rows: &[Row],
) -> Made<SchemaBuilder> {
    let object = object(alloc, name, rows)?;
    builder.register(alloc, SchemaType::Object(object))
}

/// The schema of a builder. Of a refused one comes an error, so that the test fails.
pub fn finished(alloc: Global, builder: SchemaBuilder) -> Made<Schema> {
    match builder.finish(alloc)? {
        Ok(schema) => Ok(schema),
        Err(_) => Err(AllocError),
    }
}

/// Which types a schema names as its roots.
#[derive(Clone, Copy)]
pub enum Roots {
    /// `Query` for queries, and no other root.
    QueryAlone,
    /// `Obj` for queries and subscriptions, and `Query` for mutations.
    All,
    /// Scalars for queries and subscriptions, and for mutations no type that is there.
    NoObjects,
}

fn builder(alloc: Global, roots: Roots) -> Made<SchemaBuilder> {
    match roots {
        Roots::QueryAlone => Schema::build(alloc, "Query", None, None),
        Roots::All => Schema::build(alloc, "Obj", Some("Query"), Some("Obj")),
        Roots::NoObjects => Schema::build(alloc, "Int", Some("Lost"), Some("Boolean")),
    }
}

/// A schema of the type `Query` with the object `o`, and of `Obj` with `a`, which may not be null,
/// and `b`.
pub fn schema(alloc: Global, roots: Roots) -> Made<Schema> {
    let builder = builder(alloc, roots)?;
    let builder = with_object(alloc, builder, "Query", &[("o", "Obj", 20)])?;
    let rows = &[("a", "Int!", 21), ("b", "Int", 22)];
    finished(alloc, with_object(alloc, builder, "Obj", rows)?)
}
