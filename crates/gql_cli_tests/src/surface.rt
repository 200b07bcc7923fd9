//! What users name, by the crate in which they look for it: each public item once, so that this
//! crate doesn't compile where the path of one goes.
pub mod execution;
pub mod requests;
pub mod values;
