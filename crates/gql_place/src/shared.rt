//! Shapes can be moved to threads and shared between them, where what they hold of objects can.
use crate::Shape;

fn shared<T: Send + Sync>() {}

fn of_shape() {
    shared::<Shape<u64, u64>>();
}
