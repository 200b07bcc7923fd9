ghost use Rattle.std.specs.Prelude.{◌≡◌, IfOk};
ghost use Rattle.std.specs.Option.{option_copied};
ghost use Rattle.gql_input.specs.InputType.{IsReading};

use crate::input_value_error::InputValueResult;
use gql_base::{Made, Text, Value};
use std::alloc::Global;

/// A type of input values: of arguments and of the members of input objects.
pub trait InputType: Sized {
    ghost use Rattle.std.specs.Prelude.{ℕ, List, Option, Result};
    ghost use Rattle.gql_base.specs.declared.value.Value.{Value as OneValue};
    ghost use Rattle.gql_input.specs.InputValueError.{Refusal};

    /// What a value of this type is at its heart: that of `Option<i32>` is `i32`.
    type RawValueType;

    /// The name of the type.
    ghost name: { List ℕ };

    /// The name with a mark where null is no value of the type.
    ghost qualified: { List ℕ };

    /// What a value that is there or absent gives, or its refusal, with its extensions.
    ghost read: { Option OneValue → Result Self Refusal };

    /// The value that stands for one of this type.
    ghost shown: { Self → OneValue };

    /// What it is at its heart, if any.
    ghost raw: { Self → Option Self.RawValueType };

    /// The name of the type.
    fn type_name() -> &'static str
        ensures { result.now ≡ name };

    /// The name of the type, with a `!` where null is no value of it.
    fn qualified_type_name(alloc: Global) -> Made<Text>
        ensures { IfOk result (λ text. text ≡ qualified) };

    /// Reads a value, or one that is absent.
    fn parse(alloc: Global, value: Option<Value>) -> Made<InputValueResult<Self>>
        ensures { IfOk result (IsReading (read value)) };

    /// The value that stands for this one.
    fn to_value(&self, alloc: Global) -> Made<Value>
        ensures { IfOk result (λ value. value ≡ shown self.now) };

    /// What this is at its heart, or none.
    fn as_raw_value(&self) -> Option<&Self::RawValueType>
        ensures { option_copied result ≡ raw self.now };
}
