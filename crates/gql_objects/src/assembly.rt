//! What is kept of tasks, and the places that are put together of it.

pub(crate) mod assemble;
pub(crate) mod bare;
pub(crate) mod kept;
pub(crate) mod members;
pub(crate) mod merge_places;
