//! The requests of a batch, one after another, and what hooks are told of a field can be moved to
//! threads and shared between them, and so can an answer of hooks, where what it holds can.
use gql_request::{Entered, Requests, ResolveInfo};

fn shared<T: Send + Sync>() {}

fn of_entered<T: Send + Sync>() {
    shared::<Entered<T>>();
}

fn of_requests<'a>() {
    shared::<Requests<'a>>();
}

fn of_resolve_info<'a>() {
    shared::<ResolveInfo<'a>>();
}
