//! The rules of the specification that are looked at place by place: one walk over the fields,
//! fragments, spreads and directives of a document tells which of them a table of types breaks
//! (GraphQL, October 2021, sections 5.3.1, 5.3.3, 5.4, 5.5.1.2, 5.5.1.3, 5.5.2.1, 5.6 and 5.7).
//!
//! These are the rules on the types of conditions, unknown fields, sets of leaves and of other
//! types, directives, arguments that are unknown, wanting or doubled, the literals that they are
//! given, and unknown fragments.
#![tactic(auto)]

mod against;
mod argument_texts;
mod arguments;
mod breach;
mod breach_order;
mod breach_texts;
mod built_in_arguments;
mod constants;
mod copied;
mod field_type;
mod listed;
mod listing;
mod literals;
mod roots;
mod selections;
mod site;
mod skip_include;
mod use_place;
mod walk;
mod whole_document;

pub use against::Against;
pub use breach::{Breach, BreachKind};
pub use breach_order::sorted_once;
pub use breach_texts::breach_of;
pub use built_in_arguments::{BuiltIn, built_in};
pub use field_type::{FieldType, is_composite_type};
pub use listed::{Listed, OperationPlaces};
pub use site::Site;
pub use skip_include::{is_condition, is_include_directive, is_skip_directive};
pub use use_place::UsePlace;
pub use whole_document::walk_document;
