//! Tests of `gql_tasks`: tasks that wait, and turns, over numbers.
#![tactic(auto)]

mod ground;
#[cfg(test)]
mod meeting;
mod numbers;
mod shared;
#[cfg(test)]
mod telling;
#[cfg(test)]
mod tests;
