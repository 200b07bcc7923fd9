//! The states of tasks can be moved to threads and shared between them, where futures can.
use crate::{Arena, State};

fn shared<T: Send + Sync>() {}

fn states<F: Send + Sync>() {
    shared::<Arena<F>>();
    shared::<State<F>>();
}
