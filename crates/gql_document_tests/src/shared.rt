//! What a request is admitted by, what it runs, and conflicts can be moved to threads and shared
//! between them.
use gql_admit::{Chosen, Site};
use gql_conflicts::{Conflict, RootedTypes};

fn shared<T: Send + Sync>() {}

fn of_conflict() {
    shared::<Conflict>();
}

fn of_rooted_types<'a>() {
    shared::<RootedTypes<'a>>();
}

fn of_chosen() {
    shared::<Chosen>();
}

fn of_site<'a>() {
    shared::<Site<'a>>();
}
