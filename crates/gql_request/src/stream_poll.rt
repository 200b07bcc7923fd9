use crate::response::Response;
use gql_base::{Copied, Items, Made, ServerError};
use std::alloc::Global;

/// What one poll of a stream of responses gives.
#[derive(Debug, Drop)]
pub enum StreamPoll {
    /// The next response.
    Item(Response),
    /// The errors of a request that is refused before anything of it is executed.
    Refused(Items<ServerError>),
    /// Nothing is to come.
    Ended,
    /// Nothing has come yet.
    Pending,
}

impl Copied for StreamPoll {
    fn try_clone(&self, alloc: Global) -> Made<StreamPoll> {
        match self {
            StreamPoll::Item(response) => Ok(StreamPoll::Item(response.try_clone(alloc)?)),
            StreamPoll::Refused(errors) => Ok(StreamPoll::Refused(errors.try_clone(alloc)?)),
            StreamPoll::Ended => Ok(StreamPoll::Ended),
            StreamPoll::Pending => Ok(StreamPoll::Pending),
        }
    }
}
