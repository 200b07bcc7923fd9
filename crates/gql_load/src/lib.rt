//! The bench of `load`: objects of a constant list, which two fields of one key ask for.
#![tactic(auto)]

mod form;
mod rows;
mod schema;
mod turns;

pub use form::load_form;
