//! Schemas.
ghost use Rattle.std.specs.Prelude.{◌≡◌, ◌↔◌, ◌<◌, [], IsTrue, IfOk};
ghost use Rattle.std.below.core.specs.declared.int.usize.TheConstants.{MAX};
ghost use Rattle.std.specs.Option.{option_copied};
ghost use Rattle.gql_schema.specs.Keyed.{IsKeyed};
ghost use Rattle.gql_schema.specs.Sound.{IsSound};
ghost use Rattle.gql_schema.specs.Table.{types_of};
ghost use Rattle.gql_schema.specs.Types.{type_name};
ghost use Rattle.gql_settings.specs.Settings.{new_settings, root_in, mode_for, entities_for};

use gql_base::{Copied, Made, Text};
use gql_doc::OperationType;
use gql_request::{Data, IntrospectionMode};
use gql_schema::{Same, Types};
use gql_settings::{SchemaBuilder, Settings};
use std::alloc::Global;

/// A schema: a table of types in which no rule is broken, and its settings. Once it is built, it
/// never changes.
#[derive(Debug, Drop)]
pub struct Schema {
    types: Types,
    settings: Settings,
    pub ghost is_sound: { ∥ IsSound (types_of types) ∥₁ },
    pub ghost is_keyed: { IsKeyed type_name (types_of types) },
    pub ghost is_limited: { settings.depth < MAX },
}

impl Schema {
    ghost use Rattle.gql_settings.specs.Builder.{settings_of as settings_built, table_of};
    ghost use Rattle.gql_exec.specs.Schema.{settings_of, types_in};

    /// A builder of a schema whose roots have these names. It has no types, the depth of documents
    /// is limited to 32, the number of directives isn't, requests may ask for the schema, and there
    /// is no federation.
    pub fn build(
        alloc: Global,
        query: &str,
        mutation: Option<&str>,
        subscription: Option<&str>,
    ) -> Made<SchemaBuilder>
        ensures table { IfOk result (λ builder. table_of builder ≡ []) }
        ensures settings { IfOk result (λ builder. settings_built builder
            ≡ new_settings query.now (option_copied mutation.entry)
            (option_copied subscription.entry)) }
    {
        SchemaBuilder::new(alloc, query, mutation, subscription)
    }

    /// A schema of a sound table.
    pub(crate) fn of(types: Types, settings: Settings) -> Schema
        requires sound { ∥ IsSound (types_of types) ∥₁ }
        requires limited { settings.depth < MAX }
        ensures types { types_in result ≡ types }
        ensures settings { settings_of result ≡ settings }
    {
        // (asking the number shows that each type stands under its own name)
        let _count = types.len();
        Schema { types, settings }
    }

    /// The types.
    pub fn types(&self) -> &Types
        ensures types { result.now ≡ types_in self.now }
        ensures sound { ∥ IsSound (types_of (types_in self.now)) ∥₁ }
    {
        &self.types
    }

    /// The name of the root of the operations of a kind, as it was built, where there is one.
    pub fn root(&self, ty: OperationType) -> Option<&str>
        ensures { option_copied result ≡ root_in (settings_of self.now) ty }
    {
        match ty {
            OperationType::Query => Some(self.settings.query.as_str()),
            OperationType::Mutation => text_of(&self.settings.mutation),
            OperationType::Subscription => text_of(&self.settings.subscription),
        }
    }

    /// The data of the schema's own layer.
    pub fn schema_data(&self) -> &Data
        ensures { result.now ≡ (settings_of self.now).schema_data }
    {
        &self.settings.schema_data
    }

    /// What the schema has beside its types.
    pub fn settings(&self) -> &Settings
        ensures settings { result.now ≡ settings_of self.now }
        ensures limited { (settings_of self.now).depth < MAX }
    {
        &self.settings
    }

    /// True exactly where both are equal: all that was built in is.
    #[tactic(auto, using(crate::proofs::SchemaLemmas::equal_where, crate::proofs::SchemaLemmas::differ_where))]
    pub fn equals(&self, other: &Schema) -> bool
        ensures { IsTrue result ↔ (self.now ≡ other.now) }
    {
        self.types.equals(&other.types) && self.settings.same(&other.settings)
    }

    /// How far a request in a mode may ask for the schema itself: for nothing else where the schema
    /// or the request has it so, and else as far as the request says.
    pub fn mode(&self, request: IntrospectionMode) -> IntrospectionMode
        ensures { result ≡ mode_for (settings_of self.now) request }
    {
        match (self.settings.introspection_mode, request) {
            (IntrospectionMode::IntrospectionOnly, _) => IntrospectionMode::IntrospectionOnly,
            (_, mode) => mode,
        }
    }

    /// The number of the resolver of `_entities` for a request in a mode: where there is
    /// federation, and neither the schema nor the request has introspection disabled.
    pub fn entities(&self, request: IntrospectionMode) -> Option<u32>
        ensures { result ≡ entities_for (settings_of self.now) request }
    {
        let settings = &self.settings;
        let disabled = settings.introspection_mode == IntrospectionMode::Disabled
            || request == IntrospectionMode::Disabled;
        if settings.federation && !disabled {
            settings.entity_resolver
        } else {
            None
        }
    }
}

/// The text, where there is one.
fn text_of(text: &Option<Text>) -> Option<&str>
    ensures { option_copied result ≡ text.now }
{
    match text {
        Some(text) => Some(text.as_str()),
        None => None,
    }
}

impl Copied for Schema {
    fn try_clone(&self, alloc: Global) -> Made<Schema> {
        let types = self.types.try_clone(alloc)?;
        let settings = self.settings.try_clone(alloc)?;
        Ok(Schema::of(types, settings))
    }
}
