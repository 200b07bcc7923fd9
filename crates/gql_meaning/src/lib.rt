//! What the execution of a query or a mutation means (GraphQL, October 2021, section 6, and
//! `__typename` of section 4.1): what answers come to by the types of a table, and the places and
//! worlds that come of the answers that are asked. Definitions and their laws; the code that meets
//! them stands above.
#![tactic(auto)]

pub mod laws;
