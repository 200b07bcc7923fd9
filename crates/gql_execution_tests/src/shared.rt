//! Places can be moved to threads and shared between them.
use gql_place::{Place, Tree};

fn shared<T: Send + Sync>() {}

fn of_place() {
    shared::<Place>();
}

fn of_tree() {
    shared::<Tree>();
}
