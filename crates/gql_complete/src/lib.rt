//! CompleteValue (GraphQL, October 2021, section 6.4.3): what an answer comes to by the type of its
//! field, as a shape whose objects have no members yet; and the tree of a shape whose objects get
//! theirs.
#![tactic(auto)]

mod complete_abstract;
mod complete_named;
mod complete_value;
mod data_values;
mod faults;
mod fill_shape;
mod known;
mod object_lists;

pub use complete_value::complete_known;
pub use data_values::{data_in, is_data};
pub use fill_shape::{fill, item_piece};
pub use known::Known;
pub use object_lists::object_list;
