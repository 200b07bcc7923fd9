//! Tests of execution, which is `gql_place`, `gql_collect`, `gql_complete`, `gql_objects`,
//! `gql_engine` and `gql_exec`: what no run of the program shows, as apart execution, headers and places, and each
//! public call with ample memory. Responses stand among the stored runs of `gql_cases`.
#![tactic(auto)]

#[cfg(test)]
mod answers;
#[cfg(test)]
mod apart_tests;
#[cfg(test)]
mod ballot;
#[cfg(test)]
mod batch_tests;
#[cfg(test)]
mod builder_tests;
#[cfg(test)]
mod call_tests;
#[cfg(test)]
mod counted_tests;
#[cfg(test)]
mod merged_tests;
#[cfg(test)]
mod place_tests;
#[cfg(test)]
mod scenes;
#[cfg(test)]
mod schemas;
mod shared;
