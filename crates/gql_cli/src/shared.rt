//! The public types that hold no values can be moved to threads and shared between them.
use crate::{Command, Outcome, Status};

fn shared<T: Send + Sync>() {}

fn public_types() {
    shared::<Command>();
    shared::<Outcome>();
    shared::<Status>();
}
