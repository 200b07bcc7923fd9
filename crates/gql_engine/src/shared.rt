//! What an execution is for can be moved to threads and shared between them, where the resolvers' own
//! values can.
use crate::Scene;

fn shared<T: Send + Sync>() {}

fn of_scene<'a>() {
    shared::<Scene<'a, u64>>();
}
