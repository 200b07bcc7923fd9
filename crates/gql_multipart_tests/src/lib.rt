//! Tests of `gql_multipart`: bodies, and the test of the header `Accept`.
#![tactic(auto)]

#[cfg(test)]
mod accept_tests;
#[cfg(test)]
mod multipart_tests;
