//! Builders and settings can be moved to threads and shared between them.
use crate::{SchemaBuilder, Settings};

fn shared<T: Send + Sync>() {}

fn of_settings() {
    shared::<Settings>();
}

fn of_builder() {
    shared::<SchemaBuilder>();
}
