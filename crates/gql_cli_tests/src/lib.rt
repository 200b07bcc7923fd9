//! Tests of `gql_cli` whose runs are no lines of the stored cases of `gql_cases`: inputs that a test
//! makes, faults in mid-stream, and pipes; and the paths by which users name what there is.
#![tactic(auto)]

#[cfg(test)]
mod input_tests;
#[cfg(test)]
mod runs;
#[cfg(test)]
mod stream_tests;
pub mod surface;
