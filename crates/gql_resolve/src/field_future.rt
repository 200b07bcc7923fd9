ghost use Rattle.std.specs.Prelude.{◌≡◌, option_map};

use crate::field_value::FieldValue;
use gql_base::Value;

/// How a resolver begins: with its value at once, or with a future that is polled for its answer.
#[derive(Drop)]
pub enum FieldFuture<V, F> {
    Value(Option<FieldValue<V>>),
    Future(F),
}

impl<V, F> FieldFuture<V, F> {
    /// A future.
    pub fn new(future: F) -> FieldFuture<V, F>
        ensures { result ≡ FieldFuture.Future future }
    {
        FieldFuture::Future(future)
    }

    /// A value at once, or none.
    pub fn from_value(value: Option<Value>) -> FieldFuture<V, F>
        ensures { result ≡ FieldFuture.Value (option_map (λ some. FieldValue.Value some) value) }
    {
        match value {
            Some(value) => FieldFuture::Value(Some(FieldValue::Value(value))),
            None => FieldFuture::Value(None),
        }
    }
}
