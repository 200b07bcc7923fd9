//! Schemas, and requests as they are executed over them, can be moved to threads and shared between
//! them.
use crate::{DynamicRequest, Ready, Schema};

fn moved<T: Send>() {}

fn read<T: Sync>() {}

fn shared<T: Send + Sync>() {}

fn of_schema() {
    shared::<Schema>();
}

fn of_ready() {
    shared::<Ready>();
}

fn of_moved_request<V: Send>() {
    moved::<DynamicRequest<V>>();
}

fn of_read_request<V: Sync>() {
    read::<DynamicRequest<V>>();
}
