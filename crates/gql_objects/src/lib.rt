//! The objects whose fields are asked, each with its fields, the way to it and its tasks; and the places
//! that are put together of those of the tasks (GraphQL, October 2021, sections 6.3 and 6.4).
#![tactic(auto)]

mod assembly;
mod complete_answer;
mod find_objects;
mod list_parents;
mod make_parents;
mod parent;
mod paths;
mod step;
mod task;
mod task_making;

pub use assembly::assemble::{
    add_open, assemble, open_place, piece_alone, put_place_at, reserve_places,
};
pub use assembly::bare::Bare;
pub use assembly::kept::{Filled, Kept};
pub use assembly::members::members_at;
pub use complete_answer::{known_of, place_answer};
pub use parent::{Held, Parent};
pub use paths::{value_in, write_path};
pub use task::Task;
pub use task_making::make_tasks;
