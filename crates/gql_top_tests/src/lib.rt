//! Tests of `gql_form`, `gql_load` and `gql_bench`, of what no run of the program shows: benches for
//! commands that are no words of it, benches as they are made, and what their resolvers answer to
//! calls.
#![tactic(auto)]

#[cfg(test)]
mod asking;
#[cfg(test)]
mod bench_tests;
#[cfg(test)]
mod form_tests;
#[cfg(test)]
mod load_tests;
#[cfg(test)]
mod parts;
mod shared;
#[cfg(test)]
mod table_tests;
