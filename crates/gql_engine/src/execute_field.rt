//! ExecuteField (GraphQL, October 2021, section 6.4): the plan that the scheduler runs, and what
//! becomes of the answer to each of its tasks.

pub(crate) mod complete_given;
pub(crate) mod data_answers;
pub(crate) mod tree_plan;
