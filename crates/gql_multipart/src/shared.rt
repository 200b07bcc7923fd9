//! The public type can be moved to threads and shared between them.
use crate::MultipartMixed;

fn shared<T: Send + Sync>() {}

fn public_types() {
    shared::<MultipartMixed>();
}
