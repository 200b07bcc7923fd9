//! The builder of the schema of a bench, with its settings.
ghost use Rattle.std.specs.Prelude.{◌≡◌, ◌<◌, [], false, None, IfOk};
ghost use Rattle.std.below.core.specs.declared.int.usize.TheConstants.{MAX};
ghost use Rattle.std.specs.Option.{option_copied};
ghost use Rattle.gql_settings.specs.Builder.{settings_of, table_of};
ghost use Rattle.gql_request.specs.declared.query_env.IntrospectionMode.TheVariants.{Enabled};
ghost use Rattle.gql_bench.specs.SchemaTable.{after_all, first_numbers};
ghost use Rattle.gql_bench.specs.Settings.{depth_in, entities_in, settings_in};

use crate::numbers::Numbers;
use gql_base::{Made, Text};
use gql_form::{Depth, SchemaForm, TypeForm};
use gql_request::IntrospectionMode;
use gql_settings::SchemaBuilder;
use std::alloc::Global;

/// How deep sets may lie in a schema that says nothing of it.
const DEFAULT_DEPTH: usize = 32;

/// The builder of a schema without types, with what the bench says beside them.
pub(crate) fn builder_with_settings(alloc: Global, schema: &SchemaForm) -> Made<SchemaBuilder>
    ensures table { IfOk result (λ builder. table_of builder ≡ []) }
    ensures settings { IfOk result (λ builder. settings_of builder ≡ settings_in schema.now) }
{
    let depth = levels_of(schema.settings.depth);
    let directives = limit_of(schema.settings.directives);
    let entities = entities_of(schema)?;
    let bare = SchemaBuilder::new(
        alloc,
        schema.query.as_str(),
        text_of(&schema.mutation),
        text_of(&schema.subscription),
    )?;
    let limited = with_directives(bare.limit_recursive_depth(depth), directives);
    let moded = in_mode(limited, schema.settings.introspection);
    let federated = with_federation(moded, schema.settings.federation);
    Ok(with_entities(federated, entities))
}

/// The text, where there is one.
fn text_of(text: &Option<Text>) -> Option<&str>
    ensures { option_copied result ≡ text.now }
{
    match text {
        Some(text) => Some(text.as_str()),
        None => None,
    }
}

/// How deep sets may lie.
fn levels_of(depth: Option<Depth>) -> usize
    ensures levels { result ≡ depth_in depth }
    ensures limited { result < MAX }
{
    match depth {
        Some(depth) => depth.levels as usize,
        None => DEFAULT_DEPTH,
    }
}

/// How many directives a field may have, where there is such a limit.
fn limit_of(directives: Option<u64>) -> Option<usize>
    ensures { result ≡ directives }
{
    match directives {
        Some(directives) => Some(directives as usize),
        None => None,
    }
}

/// The number of the resolver of entities, where the entity rule is set.
fn entities_of(schema: &SchemaForm) -> Made<Option<u32>>
    ensures { IfOk result (λ entities. entities ≡ entities_in schema.now) }
{
    if schema.settings.entities {
        let numbers = numbers_behind(schema.types.as_slice())?;
        Ok(Some(numbers.resolver))
    } else {
        Ok(None)
    }
}

/// The next numbers after types.
fn numbers_behind(forms: &[TypeForm]) -> Made<Numbers>
    ensures { IfOk result (λ numbers. numbers ≡ after_all first_numbers forms.now) }
{
    let mut numbers = Numbers::first();
    for form in forms {
        numbers = numbers.after(form)?;
    }
    Ok(numbers)
}

fn with_directives(builder: SchemaBuilder, directives: Option<usize>) -> SchemaBuilder
    requires { (settings_of builder).directives ≡ None }
    ensures table { table_of result ≡ table_of builder }
    ensures settings { settings_of result
        ≡ record (settings_of builder) { directives = directives } }
{
    match directives {
        Some(directives) => builder.limit_directives(directives),
        None => builder,
    }
}

fn in_mode(builder: SchemaBuilder, mode: IntrospectionMode) -> SchemaBuilder
    requires { (settings_of builder).introspection_mode ≡ Enabled }
    ensures table { table_of result ≡ table_of builder }
    ensures settings { settings_of result
        ≡ record (settings_of builder) { introspection_mode = mode } }
{
    match mode {
        IntrospectionMode::Enabled => builder,
        IntrospectionMode::IntrospectionOnly => builder.introspection_only(),
        IntrospectionMode::Disabled => builder.disable_introspection(),
    }
}

fn with_federation(builder: SchemaBuilder, federation: bool) -> SchemaBuilder
    requires { (settings_of builder).federation ≡ false }
    ensures table { table_of result ≡ table_of builder }
    ensures settings { settings_of result
        ≡ record (settings_of builder) { federation = federation } }
{
    if federation {
        builder.enable_federation()
    } else {
        builder
    }
}

fn with_entities(builder: SchemaBuilder, entities: Option<u32>) -> SchemaBuilder
    requires { (settings_of builder).entity_resolver ≡ None }
    ensures table { table_of result ≡ table_of builder }
    ensures settings { settings_of result
        ≡ record (settings_of builder) { entity_resolver = entities } }
{
    match entities {
        Some(resolver) => builder.entity_resolver(resolver),
        None => builder,
    }
}
