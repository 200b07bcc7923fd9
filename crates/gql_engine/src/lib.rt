//! ExecuteQuery and ExecuteMutation (GraphQL, October 2021, section 6.2): the plan by which the
//! scheduler runs the fields of objects as tasks, and the whole execution of a query or a mutation:
//! merged, where each key of a set is one task, or apart, where each occurrence of a field is one.
#![tactic(auto)]

mod apart;
mod execute_field;
mod execute_mutation;
mod execute_query;
pub mod laws;
mod merged;
mod root_keys;
mod scene;
mod shared;

pub use apart::run_apart;
pub use execute_mutation::run_mutation_grouped;
pub use execute_query::run_grouped;
pub use gql_collect::collect_counted;
pub use gql_place::{Place, Tree, faults, header_ops, join, raise};
pub use merged::run_merged;
pub use scene::Scene;
