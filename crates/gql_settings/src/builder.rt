//! The builder of schemas.
ghost use Rattle.std.specs.Prelude.{◌≡◌, ◌<◌, [], Some, true, IfOk};
ghost use Rattle.std.specs.Option.{option_copied};
ghost use Rattle.std.below.core.specs.declared.int.usize.TheConstants.{MAX};
ghost use Rattle.gql_base.specs.Pairs.{put};
ghost use Rattle.gql_request.specs.Data.{put_key};
ghost use Rattle.gql_request.specs.declared.query_env.IntrospectionMode.TheVariants.{Disabled};
ghost use Rattle.gql_request.specs.declared.query_env.IntrospectionMode.TheVariants.{IntrospectionOnly};
ghost use Rattle.gql_schema.specs.Table.{types_of};
ghost use Rattle.gql_schema.specs.Types.{type_name};
ghost use Rattle.gql_settings.specs.Federation.{table_with};
ghost use Rattle.gql_settings.specs.Settings.{new_settings};

use crate::settings::Settings;
use gql_base::{Copied, Made, Value};
use gql_request::{DataKey, IntrospectionMode};
use gql_schema::{SchemaType, Types};
use std::alloc::Global;

/// A schema that is being built: its types, which aren't checked yet, and its settings.
#[derive(Drop)]
pub struct SchemaBuilder {
    types: Types,
    settings: Settings,
    pub ghost is_limited: { settings.depth < MAX },
}

impl SchemaBuilder {
    ghost use Rattle.gql_settings.specs.Builder.{is_federated, settings_of, table_of};

    /// A builder of a schema whose roots have these names. It has no types, the depth of documents
    /// is limited to 32, the number of directives isn't, requests may ask for the schema, and there
    /// is no federation.
    pub fn new(
        alloc: Global,
        query: &str,
        mutation: Option<&str>,
        subscription: Option<&str>,
    ) -> Made<SchemaBuilder>
        ensures table { IfOk result (λ builder. table_of builder ≡ []) }
        ensures settings { IfOk result (λ builder. settings_of builder
            ≡ new_settings query.now (option_copied mutation.entry)
            (option_copied subscription.entry)) }
    {
        let settings = Settings::new(alloc, query, mutation, subscription)?;
        Ok(SchemaBuilder {
            types: Types::new(alloc),
            settings,
        })
    }

    /// This builder with a type under its name. A second one under a name takes the place of the
    /// first.
    pub fn register(mut self, alloc: Global, ty: SchemaType) -> Made<SchemaBuilder>
        ensures table { IfOk result (λ builder. table_of builder ≡ put (table_of self) (type_name ty) ty) }
        ensures settings { IfOk result (λ builder. settings_of builder ≡ settings_of self) }
    {
        self.types.register(alloc, ty)?;
        Ok(self)
    }

    /// This builder with a value under a key of the schema's layer of data.
    pub fn data(mut self, key: DataKey, value: Value) -> Made<SchemaBuilder>
        ensures table { IfOk result (λ builder. table_of builder ≡ table_of self) }
        ensures settings { IfOk result (λ builder. settings_of builder
            ≡ record (settings_of self)
            { schema_data = put_key (settings_of self).schema_data key.0 value }) }
    {
        self.settings.schema_data.insert(key, value)?;
        Ok(self)
    }

    /// This builder with a limit on how deep the sets of a document may lie, in place of its own.
    pub fn limit_recursive_depth(self, depth: usize) -> SchemaBuilder
        requires { depth < MAX }
        ensures table { table_of result ≡ table_of self }
        ensures settings { settings_of result ≡ record (settings_of self) { depth = depth } }
    {
        SchemaBuilder {
            settings: Settings {
                depth,
                ..self.settings
            },
            types: self.types,
        }
    }

    /// This builder with a limit on the number of directives of a field, in place of its own.
    pub fn limit_directives(self, directives: usize) -> SchemaBuilder
        ensures table { table_of result ≡ table_of self }
        ensures settings { settings_of result ≡ record (settings_of self) { directives = Some directives } }
    {
        SchemaBuilder {
            settings: Settings {
                directives: Some(directives),
                ..self.settings
            },
            types: self.types,
        }
    }

    /// This builder, to whose requests fields of the schema have no values.
    pub fn disable_introspection(self) -> SchemaBuilder
        ensures table { table_of result ≡ table_of self }
        ensures settings { settings_of result ≡ record (settings_of self) { introspection_mode = Disabled } }
    {
        self.in_mode(IntrospectionMode::Disabled)
    }

    /// This builder, to whose requests fields of the schema alone have values.
    pub fn introspection_only(self) -> SchemaBuilder
        ensures table { table_of result ≡ table_of self }
        ensures settings { settings_of result
            ≡ record (settings_of self) { introspection_mode = IntrospectionOnly } }
    {
        self.in_mode(IntrospectionMode::IntrospectionOnly)
    }

    fn in_mode(self, introspection_mode: IntrospectionMode) -> SchemaBuilder
        ensures table { table_of result ≡ table_of self }
        ensures settings { settings_of result
            ≡ record (settings_of self) { introspection_mode = introspection_mode } }
    {
        SchemaBuilder {
            settings: Settings {
                introspection_mode,
                ..self.settings
            },
            types: self.types,
        }
    }

    /// This builder, whose schema gets what federation adds, also where no object has a key.
    pub fn enable_federation(self) -> SchemaBuilder
        ensures table { table_of result ≡ table_of self }
        ensures settings { settings_of result ≡ record (settings_of self) { federation = true } }
    {
        SchemaBuilder {
            settings: Settings {
                federation: true,
                ..self.settings
            },
            types: self.types,
        }
    }

    /// This builder with a resolver of `_entities`, in place of its own.
    pub fn entity_resolver(self, resolver: u32) -> SchemaBuilder
        ensures table { table_of result ≡ table_of self }
        ensures settings { settings_of result ≡ record (settings_of self) { entity_resolver = Some resolver } }
    {
        SchemaBuilder {
            settings: Settings {
                entity_resolver: Some(resolver),
                ..self.settings
            },
            types: self.types,
        }
    }

    /// The types and the settings of the schema. Where federation is asked for, or an object has a
    /// key, the table has its two types. Nothing is checked of it yet.
    pub fn into_parts(self, alloc: Global) -> Made<(Types, Settings)>
        ensures table { IfOk result (λ parts. types_of parts.0
            ≡ table_with (is_federated self) (table_of self)) }
        ensures settings { IfOk result (λ parts. parts.1
            ≡ record (settings_of self) { federation = is_federated self }) }
        ensures limited { IfOk result (λ parts. parts.1.depth < MAX) }
    {
        let federation = self.is_federated();
        let SchemaBuilder { types, settings } = self;
        let types = with_federation(alloc, types, federation)?;
        let settings = Settings {
            federation,
            ..settings
        };
        Ok((types, settings))
    }

    /// True exactly where federation is asked for, or an object has a key.
    fn is_federated(&self) -> bool
        ensures { result ≡ is_federated self.now }
    {
        self.settings.federation || self.types.has_entities()
    }
}

/// The table, with the two types of federation where there is one.
fn with_federation(alloc: Global, types: Types, federation: bool) -> Made<Types>
    ensures { IfOk result (λ whole. types_of whole ≡ table_with federation (types_of types)) }
{
    if federation {
        types.with_entities(alloc)
    } else {
        Ok(types)
    }
}

impl Copied for SchemaBuilder {
    fn try_clone(&self, alloc: Global) -> Made<SchemaBuilder> {
        let types = self.types.try_clone(alloc)?;
        let settings = self.settings.try_clone(alloc)?;
        Ok(SchemaBuilder { types, settings })
    }
}
