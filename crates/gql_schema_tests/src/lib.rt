//! Tests of `gql_schema`: the table of types.
#![tactic(auto)]

#[cfg(test)]
mod schema_fit_tests;
#[cfg(test)]
mod schema_sample;
mod schema_shared;
#[cfg(test)]
mod schema_table_tests;
#[cfg(test)]
mod schema_type_tests;
