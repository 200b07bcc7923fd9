//! Tests of `gql_ws`: subprotocols, messages and sessions.
#![tactic(auto)]

#[cfg(test)]
mod call_tests;
#[cfg(test)]
mod message_tests;
#[cfg(test)]
mod script;
#[cfg(test)]
mod session_tests;
#[cfg(test)]
mod tests;
