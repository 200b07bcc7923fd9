//! How the head of ExecuteField finds what a field asks (GraphQL, October 2021, sections 6.4 and
//! 6.4.1).
ghost use Rattle.std.specs.Prelude.{◌≡◌, Some, IfOk};
ghost use Rattle.gql_collect.specs.Execution.{is_typename};
ghost use Rattle.gql_collect.specs.TableSetting.{field_in};
ghost use Rattle.gql_resolve.specs.Variables.{known_in};
ghost use Rattle.gql_schema.specs.DeclaredField.{declared_behind};
ghost use Rattle.gql_schema.specs.Table.{types_of};
ghost use Rattle.gql_schema.specs.TableReading.{field as field_of_table};
ghost use Rattle.gql_select.specs.Alike.{arguments_of, name_of};
ghost use Rattle.gql_collect.specs.Asks.{asks_allowed, asks_of, asks_of_declared, entities_by};
ghost use Rattle.gql_collect.specs.Basis.{execution_of, is_introspection_only, schema_of};

use crate::asks::Asks;
use crate::basis::Basis;
use crate::coerce_arguments::{add_argument, argument_values};
use gql_base::{Copied, Made, Pairs, TypeRef};
use gql_doc::{Argument, Field, Positioned};
use gql_request::{IntrospectionMode, QueryEnv};
use gql_schema::DeclaredField;
use gql_select::value_in;
use std::alloc::Global;

/// What a field asks on an object (GraphQL, October 2021, sections 6.4.1 and 6.4.2).
pub(crate) fn asks_for(
    alloc: Global,
    basis: &Basis<'_>,
    object: &str,
    field: &Positioned<Field>,
) -> Made<Asks>
    ensures { IfOk result (λ asks. asks ≡ asks_of (execution_of basis.now) object.now field.now) }
{
    if is_object_name(field) {
        Ok(Asks::Typename)
    } else {
        ask_allowed(alloc, basis, object, field)
    }
}

/// Whether a field is that of the object's own name (section 4.1).
fn is_object_name(field: &Positioned<Field>) -> bool
    ensures { result ≡ is_typename (name_of field.now) }
{
    field.node.name.node.as_str() == "__typename"
}

/// What another field asks: in introspection-only mode nothing.
fn ask_allowed(
    alloc: Global,
    basis: &Basis<'_>,
    object: &str,
    field: &Positioned<Field>,
) -> Made<Asks>
    ensures { IfOk result (λ asks. asks ≡ asks_allowed (execution_of basis.now) object.now
        (name_of field.now) (arguments_of field.now)) }
{
    if is_only_introspection(basis.env.introspection_mode) {
        Ok(Asks::Nothing)
    } else {
        ask_resolved(alloc, basis, object, field)
    }
}

/// What a field asks by its declaration, if there is one.
fn ask_resolved(
    alloc: Global,
    basis: &Basis<'_>,
    object: &str,
    field: &Positioned<Field>,
) -> Made<Asks>
    ensures { IfOk result (λ asks. asks ≡ asks_of_declared (known_in basis.now.env.now)
        (field_in (schema_of basis.now) object.now (name_of field.now)) (arguments_of field.now)) }
{
    let name = field.node.name.node.as_str();
    let written = field.node.arguments.as_slice();
    ask_named(alloc, basis, object, name, written)
}

/// Whether fields of the schema alone have values.
pub(crate) fn is_only_introspection(mode: IntrospectionMode) -> bool
    ensures { result ≡ is_introspection_only mode }
{
    match mode {
        IntrospectionMode::IntrospectionOnly => true,
        IntrospectionMode::Enabled => false,
        IntrospectionMode::Disabled => false,
    }
}

/// What the field of a name asks: the query root has that of entities too, where they are on.
fn ask_named(
    alloc: Global,
    basis: &Basis<'_>,
    object: &str,
    name: &str,
    written: &[Argument],
) -> Made<Asks>
    ensures { IfOk result (λ asks. asks ≡ asks_of_declared (known_in basis.now.env.now)
        (field_in (schema_of basis.now) object.now name.now) written.now) }
{
    match basis.entities {
        None => ask_field(alloc, basis, object, name, written),
        Some(resolver) => {
            if name == "_entities" && object == basis.query {
                ask_entities(alloc, basis.env, resolver, written)
            } else {
                ask_field(alloc, basis, object, name, written)
            }
        }
    }
}

/// What the field of a name asks by the table of types.
fn ask_field(
    alloc: Global,
    basis: &Basis<'_>,
    object: &str,
    name: &str,
    written: &[Argument],
) -> Made<Asks>
    ensures { IfOk result (λ asks. asks ≡ asks_of_declared (known_in basis.now.env.now)
        (field_of_table (types_of basis.now.types.now) object.now name.now) written.now) }
{
    match basis.types.field(object, name) {
        None => Ok(Asks::Nothing),
        Some(declared) => ask_declared(alloc, basis.env, &declared, written),
    }
}

/// What a declared field asks: the call of its resolver, where it has one.
fn ask_declared(
    alloc: Global,
    env: &QueryEnv,
    declared: &DeclaredField<'_>,
    written: &[Argument],
) -> Made<Asks>
    ensures { IfOk result (λ asks. asks ≡ asks_of_declared (known_in env.now)
        (Some (declared_behind declared.now)) written.now) }
{
    match declared.number {
        None => Ok(Asks::Nothing),
        Some(resolver) => {
            let arguments = argument_values(alloc, env, declared.arguments, written)?;
            let ty = declared.ty.try_clone(alloc)?;
            Ok(Asks::Call {
                resolver,
                ty,
                arguments,
            })
        }
    }
}

/// What the field of entities asks.
fn ask_entities(alloc: Global, env: &QueryEnv, resolver: u32, written: &[Argument]) -> Made<Asks>
    ensures { IfOk result (λ asks. asks ≡ asks_of_declared (known_in env.now)
        (Some (entities_by resolver)) written.now) }
{
    let mut arguments = Pairs::new(alloc);
    let name = "representations";
    add_argument(
        alloc,
        env,
        &mut arguments,
        name,
        value_in(written, name),
        None,
    )?;
    let ty = TypeRef::named_list_nn(alloc, "_Entity")?;
    Ok(Asks::Call {
        resolver,
        ty,
        arguments,
    })
}
