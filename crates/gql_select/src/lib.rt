//! What the selections of a document mean: which fields an object has in them, which selections are
//! kept, what arguments come to, and when the fields of one key agree (GraphQL, October 2021,
//! sections 5.3.2, 6.3.2 and 6.4.1); and how arguments are found by their names.
#![tactic(auto)]

mod alike;
mod given;
pub mod laws;
mod same_written;

pub use alike::{same_arguments, same_as_given};
pub use given::{Given, value_in};
pub use same_written::same_value;
