//! Tests of `gql_base` and of what stands on it alone: tokens, values as resolvers read them,
//! sources and sinks.
#![tactic(auto)]

#[cfg(test)]
mod calls_tests;
#[cfg(test)]
mod enum_tests;
#[cfg(test)]
mod error_tests;
#[cfg(test)]
mod input_error_tests;
#[cfg(test)]
mod input_tests;
#[cfg(test)]
mod input_type_tests;
#[cfg(test)]
mod io_tests;
#[cfg(test)]
mod json_tests;
#[cfg(test)]
mod names_tests;
#[cfg(test)]
mod pairs_tests;
#[cfg(test)]
mod scalar_tests;
#[cfg(test)]
mod tests;
#[cfg(test)]
mod tokens_tests;
