//! Tests of documents and of their admission, which are `gql_doc`, `gql_collect`, `gql_conflicts`,
//! `gql_rules` and `gql_admit`: what no run of the program shows, and each public call with ample memory. What a
//! refused request is told stands among the stored runs of `gql_cases`.
#![tactic(auto)]

#[cfg(test)]
mod admit_tests;
#[cfg(test)]
mod clear_tests;
#[cfg(test)]
mod collect_tests;
#[cfg(test)]
mod conflict_tests;
#[cfg(test)]
mod document_tests;
#[cfg(test)]
mod example_tests;
#[cfg(test)]
mod once_tests;
#[cfg(test)]
mod sample;
mod shared;
#[cfg(test)]
mod summary;
