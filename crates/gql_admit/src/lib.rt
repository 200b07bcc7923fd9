//! The admission of a request, before anything is executed: its limits, the rules of the
//! specification, the choice of its operation, and what `@skip` and `@include` leave of it
//! (GraphQL, October 2021, sections 3.13, 5 and 6.1).
#![tactic(auto)]

mod beneath;
mod chosen;
mod conditions;
mod copied;
mod depth;
mod directives;
mod keeping;
mod laws;
mod operation;
mod preparing;
mod refusals;
mod whole;

pub use chosen::Chosen;
pub use depth::{check_depth, check_depth_counted};
pub use directives::{check_directives, check_directives_counted};
pub use gql_fields::Site;
pub use gql_rules::check_rules;
pub use keeping::keep;
pub use laws::one_preparation_of_a_request;
pub use operation::{choose_operation, chosen_kind};
pub use preparing::prepare;
