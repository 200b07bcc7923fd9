//! The builder of the schema of a bench, with its types.
ghost use Rattle.std.specs.Prelude.{◌≡◌, IfOk};
ghost use Rattle.gql_settings.specs.Builder.{settings_of, table_of};
ghost use Rattle.gql_bench.specs.SchemaTable.{declared_table, first_numbers, registered};
ghost use Rattle.gql_bench.specs.Settings.{settings_in};

use crate::numbers::Numbers;
use crate::settings::builder_with_settings;
use crate::type_table::type_of;
use gql_base::Made;
use gql_form::{SchemaForm, TypeForm};
use gql_settings::SchemaBuilder;
use std::alloc::Global;

/// The builder of a schema, with its types and its settings.
pub(crate) fn builder_of(alloc: Global, schema: &SchemaForm) -> Made<SchemaBuilder>
    ensures table { IfOk result (λ builder. table_of builder ≡ declared_table schema.now) }
    ensures settings { IfOk result (λ builder. settings_of builder ≡ settings_in schema.now) }
{
    let builder = builder_with_settings(alloc, schema)?;
    with_types(alloc, builder, schema.types.as_slice())
}

/// This builder with these types, each under its name. Their resolvers and sources are numbered
/// from the first ones on.
fn with_types(alloc: Global, mut builder: SchemaBuilder, forms: &[TypeForm]) -> Made<SchemaBuilder>
    ensures table { IfOk result (λ made. table_of made
        ≡ registered (table_of builder) first_numbers forms.now) }
    ensures settings { IfOk result (λ made. settings_of made ≡ settings_of builder) }
{
    let mut numbers = Numbers::first();
    for form in forms {
        builder = builder.register(alloc, type_of(alloc, numbers, form)?)?;
        numbers = numbers.after(form)?;
    }
    Ok(builder)
}
