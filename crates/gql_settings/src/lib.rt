//! What a schema is built of: the builder that is told its types, its limits and its data, and the
//! settings that a schema has beside its types.
#![tactic(auto)]

mod builder;
mod settings;
mod shared;

pub use builder::SchemaBuilder;
pub use settings::Settings;
