//! Tests of `gql_resolve`: resolver sets, what a context reads, what is selected under a field,
//! guards and parameters.
#![tactic(auto)]

#[cfg(test)]
mod context_tests;
#[cfg(test)]
mod guard_tests;
#[cfg(test)]
mod look_ahead_tests;
#[cfg(test)]
mod parameter_tests;
#[cfg(test)]
mod parts;
#[cfg(test)]
mod queries;
#[cfg(test)]
mod sample;
#[cfg(test)]
mod tests;
#[cfg(test)]
mod value_tests;
