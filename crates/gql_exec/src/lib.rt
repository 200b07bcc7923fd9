//! Schemas as requests meet them: a checked table of types with the names of its roots, its limits
//! and its data, how a builder is finished to one, and the execution of requests over it.
#![tactic(auto)]

mod batch;
mod builder;
mod dynamic_request;
mod execution;
pub mod laws;
mod place_response;
mod ready;
mod root;
mod schema;
mod shared;

pub use builder::SchemaBuilderExt;
pub use dynamic_request::{DynamicRequest, DynamicRequestExt};
pub use gql_settings::{SchemaBuilder, Settings};
pub use place_response::response_at;
pub use ready::Ready;
pub use schema::Schema;
