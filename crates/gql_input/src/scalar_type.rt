ghost use Rattle.std.specs.Prelude.{◌≡◌, IfOk};
ghost use Rattle.gql_input.specs.InputType.{IsReading};

use crate::input_value_error::InputValueResult;
use gql_base::{Made, Value};
use std::alloc::Global;

/// A scalar of a program's own.
pub trait ScalarType: Sized {
    ghost use Rattle.std.specs.Prelude.{Bool, Result};
    ghost use Rattle.gql_base.specs.declared.value.Value.{Value as OneValue};
    ghost use Rattle.gql_input.specs.InputValueError.{Refusal};

    /// What a value gives, or its refusal, with its extensions.
    ghost read: { OneValue → Result Self Refusal };

    /// Whether a value may stand in a document at this type.
    ghost valid: { OneValue → Bool };

    /// The value that stands for one of this type.
    ghost shown: { Self → OneValue };

    /// Reads a value.
    fn parse(alloc: Global, value: Value) -> Made<InputValueResult<Self>>
        ensures { IfOk result (IsReading (read value)) };

    /// Whether a value may stand in a document at this type.
    fn is_valid(value: &Value) -> bool
        ensures { result ≡ valid value.now };

    /// The value that stands for this one.
    fn to_value(&self, alloc: Global) -> Made<Value>
        ensures { IfOk result (λ value. value ≡ shown self.now) };
}
