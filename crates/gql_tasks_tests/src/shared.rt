//! What a task is given, where the resolvers' own values can, and the numbers of those that wait
//! can be moved to threads and shared between them.
use gql_tasks::{Given, Waiting};

fn shared<T: Send + Sync>() {}

fn of_given() {
    shared::<Given<u64>>();
}

fn of_waiting() {
    shared::<Waiting>();
}
