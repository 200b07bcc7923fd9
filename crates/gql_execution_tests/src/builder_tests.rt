//! What schemas have of what their builders were told.
use crate::schemas::{finished, with_object};
use gql_base::{Copied, Made, Number, Value};
use gql_doc::OperationType;
use gql_exec::{DynamicRequest, DynamicRequestExt, Schema, SchemaBuilder, SchemaBuilderExt};
use gql_request::{DataKey, IntrospectionMode, Request};
use gql_resolve::FieldValue;
use std::alloc::Global;
use std::test::Fail;

/// A builder of a sound schema, with the data 7 under key 1.
fn sound(alloc: Global) -> Made<SchemaBuilder> {
    let builder = Schema::build(alloc, "Query", None, Some("Events"))?;
    with_object(alloc, builder, "Query", &[("f", "Int", 0)])?.data(
        DataKey(1),
        Value::Number(Number::from_i64(7)),
    )
}

/// A builder with all that a schema can be told.
fn full(alloc: Global) -> Made<SchemaBuilder> {
    Ok(
        sound(alloc)?
            .limit_recursive_depth(5)
            .limit_directives(3)
            .disable_introspection()
            .enable_federation()
            .entity_resolver(9),
    )
}

/// A copy of a builder whose requests may ask for the schema alone.
fn copied(alloc: Global) -> Made<SchemaBuilder> {
    sound(alloc)?.introspection_only().try_clone(alloc)
}

/// A builder that is tried.
#[derive(Clone, Copy)]
enum Case {
    Sound,
    Full,
    Copied,
}

/// The cases and their names.
const CASES: [(&str, Case); 3] = [
    ("sound", Case::Sound),
    ("full", Case::Full),
    ("copied", Case::Copied),
];

fn build(alloc: Global, case: Case) -> Made<SchemaBuilder> {
    match case {
        Case::Sound => sound(alloc),
        Case::Full => full(alloc),
        Case::Copied => copied(alloc),
    }
}

/// Whether a schema has what the builder of a case was told.
fn is_of(case: Case, schema: &Schema) -> bool {
    match case {
        Case::Sound => is_plain(schema),
        Case::Full => is_full(schema),
        Case::Copied => is_introspection_only(schema),
    }
}

fn limits_are(schema: &Schema, depth: usize, directives: Option<usize>) -> bool {
    let settings = schema.settings();
    settings.depth == depth && settings.directives == directives
}

fn roots_are(schema: &Schema) -> bool {
    schema.root(OperationType::Query) == Some("Query")
        && schema.root(OperationType::Mutation) == None
        && schema.root(OperationType::Subscription) == Some("Events")
}

fn has_data(schema: &Schema) -> bool {
    match schema.schema_data().get(DataKey(1)) {
        Some(Value::Number(number)) => number.as_i64() == Some(7),
        _ => false,
    }
}

fn has_type(schema: &Schema, name: &str) -> bool {
    schema.types().get(name).is_some()
}

/// Whether a schema that was told nothing has what every schema has.
fn is_plain(schema: &Schema) -> bool {
    roots_are(schema)
        && has_data(schema)
        && limits_are(schema, 32, None)
        && has_type(schema, "Int")
        && !has_type(schema, "_Any")
        && schema.mode(IntrospectionMode::Disabled) == IntrospectionMode::Disabled
        && schema.entities(IntrospectionMode::Enabled) == None
}

/// Whether a schema that was told everything has it, and no entities, since its introspection is
/// disabled.
fn is_full(schema: &Schema) -> bool {
    limits_are(schema, 5, Some(3))
        && has_type(schema, "_Any")
        && has_type(schema, "_Entity")
        && schema.entities(IntrospectionMode::Enabled) == None
}

fn is_introspection_only(schema: &Schema) -> bool {
    schema.mode(IntrospectionMode::Disabled) == IntrospectionMode::IntrospectionOnly
}

fn is_copied_of(alloc: Global, case: Case, schema: &Schema) -> Made<bool> {
    let copy = schema.try_clone(alloc)?;
    Ok(is_of(case, &copy))
}

/// Whether a builder gives the schema of a case.
fn gives(alloc: Global, builder: SchemaBuilder, case: Case) -> Made<bool> {
    is_copied_of(alloc, case, &finished(alloc, builder)?)
}

/// The name of the first case whose builder gives another schema.
fn first_wrong(alloc: Global, table: &[(&'static str, Case)]) -> Made<Option<&'static str>> {
    for (name, case) in table {
        if !gives(alloc, build(alloc, *case)?, *case)? {
            return Ok(Some(*name));
        }
    }
    Ok(None)
}

#[test]
fn schemas_have_what_their_builders_were_told(rt: HostRuntime) -> Result<(), Fail> {
    assert_eq!(rt; first_wrong(rt.alloc(), &CASES)?, None);
    Ok(())
}

/// A copy of a request whose root has the number 5.
fn rooted(alloc: Global) -> Made<DynamicRequest<i64>> {
    let request = Request::new(alloc, "{ f }")?.root_value(FieldValue::own(5));
    request.try_clone(alloc)
}

fn is_rooted(request: &DynamicRequest<i64>) -> bool {
    request.inner.query.as_str() == "{ f }" && request.root_value.as_own() == Some(&5)
}

#[test]
fn a_request_has_the_value_of_its_root(rt: HostRuntime) -> Result<(), Fail> {
    let request = rooted(rt.alloc())?;
    assert!(rt; is_rooted(&request));
    Ok(())
}
