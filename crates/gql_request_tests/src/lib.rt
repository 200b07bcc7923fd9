//! Tests of `gql_request`: requests and responses.
#![tactic(auto)]

#[cfg(test)]
mod context_tests;
#[cfg(test)]
mod copy_tests;
#[cfg(test)]
mod executor_tests;
#[cfg(test)]
mod header_tests;
#[cfg(test)]
mod hook_tests;
#[cfg(test)]
mod request_tests;
#[cfg(test)]
mod response_tests;
mod shared;
#[cfg(test)]
mod tests;
