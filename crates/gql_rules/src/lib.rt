//! The check of a document against the rules of the specification (GraphQL, October 2021, section
//! 5).
//!
//! Thirteen rules are checked. Those that are looked at place by place are told by `gql_fields`.
//! Here are fragments that reach themselves (5.5.2.2), the definitions of variables with the values
//! that a request gives them (5.8.1, 5.8.2 and 6.1.2), the uses of variables at the places that an
//! operation reaches (5.8.3 and 5.8.5), fields that can't be merged under one key (5.3.2), and the
//! list of all breaches in their order.
#![tactic(auto)]

mod alike_operations;
mod chosen_operation;
mod circles;
mod definition_fault;
mod definition_texts;
mod field_merging;
mod fragment_cycles;
mod fragment_spreads;
mod reached_uses;
mod reaching;
mod refusal;
mod rules;
mod spread;
mod usage_allowed;
mod value_place;
mod variable_definitions;
mod variable_texts;
mod variable_uses;

pub use chosen_operation::chosen_in;
pub use refusal::refuse;
pub use rules::check_rules;
