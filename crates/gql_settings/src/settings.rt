ghost use Rattle.std.specs.Prelude.{◌≡◌, IfOk};
ghost use Rattle.std.specs.Option.{option_copied};

use gql_base::{Copied, Made, Text};
use gql_request::{Data, IntrospectionMode};
use gql_schema::Same;
use std::alloc::Global;

/// What a schema has beside its types.
#[derive(Debug, Drop)]
pub struct Settings {
    /// The name of the query root.
    pub query: Text,
    /// The name of the mutation root, where there is one.
    pub mutation: Option<Text>,
    /// The name of the subscription root, where there is one.
    pub subscription: Option<Text>,
    /// The data of the schema's own layer.
    pub schema_data: Data,
    /// How deep the sets of a document may lie, where the set of an operation has depth 0.
    pub depth: usize,
    /// How many directives a field may have, where there is such a limit.
    pub directives: Option<usize>,
    /// How far requests may ask for the schema itself.
    pub introspection_mode: IntrospectionMode,
    /// Whether the schema has what federation adds. In a builder it is whether that was asked for.
    pub federation: bool,
    /// The number of the resolver of `_entities`, where there is one.
    pub entity_resolver: Option<u32>,
}

impl Settings {
    ghost use Rattle.std.specs.Prelude.{◌≡◌, IfOk};
    ghost use Rattle.std.specs.Option.{option_copied};
    ghost use Rattle.gql_settings.specs.Settings.{new_settings};

    /// The settings of a new builder.
    pub(crate) fn new(
        alloc: Global,
        query: &str,
        mutation: Option<&str>,
        subscription: Option<&str>,
    ) -> Made<Settings>
        ensures { IfOk result (λ settings. settings
            ≡ new_settings query.now (option_copied mutation.entry)
            (option_copied subscription.entry)) }
    {
        Ok(Settings {
            query: Text::new(alloc, query)?,
            mutation: copied_text(alloc, mutation)?,
            subscription: copied_text(alloc, subscription)?,
            schema_data: Data::new(alloc),
            depth: 32,
            directives: None,
            introspection_mode: IntrospectionMode::Enabled,
            federation: false,
            entity_resolver: None,
        })
    }
}

/// A copy of a text, where there is one.
fn copied_text(alloc: Global, text: Option<&str>) -> Made<Option<Text>>
    ensures { IfOk result (λ copy. copy ≡ option_copied text.entry) }
{
    match text {
        Some(text) => Ok(Some(Text::new(alloc, text)?)),
        None => Ok(None),
    }
}

impl Copied for Settings {
    fn try_clone(&self, alloc: Global) -> Made<Settings> {
        Ok(Settings {
            query: self.query.try_clone(alloc)?,
            mutation: self.mutation.try_clone(alloc)?,
            subscription: self.subscription.try_clone(alloc)?,
            schema_data: self.schema_data.try_clone(alloc)?,
            depth: self.depth,
            directives: self.directives,
            introspection_mode: self.introspection_mode,
            federation: self.federation,
            entity_resolver: self.entity_resolver,
        })
    }
}

impl Same for Settings {
    fn same(&self, other: &Settings) -> bool {
        self.query == other.query
            && self.mutation.same(&other.mutation)
            && self.subscription.same(&other.subscription)
            && self.schema_data.equals(&other.schema_data)
            && self.depth == other.depth
            && self.directives == other.directives
            && self.introspection_mode == other.introspection_mode
            && self.federation == other.federation
            && self.entity_resolver == other.entity_resolver
    }
}
