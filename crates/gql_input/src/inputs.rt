//! The input types of the base.
ghost use Rattle.std.specs.Prelude.{◌≡◌};
ghost use Rattle.gql_input.specs.InputType.{small_number_of};

use crate::input_type::InputType;
use crate::input_value_error::{InputValueError, InputValueResult};
use gql_base::{Boxed, Copied, Made, Number, Text, Value};
use std::alloc::Global;

impl InputType for bool {
    ghost use Rattle.std.specs.Prelude.{Some, codes};
    ghost use Rattle.gql_base.specs.Kinds.{boolean_of};
    ghost use Rattle.gql_base.specs.declared.value.Value.TheVariants as value;
    ghost use Rattle.gql_input.specs.InputType.{read_as};

    type RawValueType = bool;

    ghost name = { codes "Boolean" };

    ghost qualified = { codes "Boolean!" };

    ghost read = { read_as boolean_of (codes "Boolean") };

    ghost shown = { value.Boolean };

    ghost raw = { λ truth. Some truth };

    fn type_name() -> &'static str {
        "Boolean"
    }

    fn qualified_type_name(alloc: Global) -> Made<Text> {
        Text::new(alloc, "Boolean!")
    }

    fn parse(alloc: Global, value: Option<Value>) -> Made<InputValueResult<bool>> {
        match value.unwrap_or(Value::Null) {
            Value::Boolean(truth) => Ok(Ok(truth)),
            other => Ok(Err(InputValueError::expected(alloc, "Boolean", other)?)),
        }
    }

    fn to_value(&self, _alloc: Global) -> Made<Value> {
        Ok(Value::Boolean(*self))
    }

    fn as_raw_value(&self) -> Option<&bool> {
        Some(self)
    }
}

impl InputType for i32 {
    ghost use Rattle.std.specs.Prelude.{Some, codes};
    ghost use Rattle.gql_base.specs.declared.value.Value.TheVariants as value;
    ghost use Rattle.gql_input.specs.InputType.{read_as};

    type RawValueType = i32;

    ghost name = { codes "Int" };

    ghost qualified = { codes "Int!" };

    ghost read = { read_as small_number_of (codes "Int") };

    ghost shown = { value.Number };

    ghost raw = { λ number. Some number };

    fn type_name() -> &'static str {
        "Int"
    }

    fn qualified_type_name(alloc: Global) -> Made<Text> {
        Text::new(alloc, "Int!")
    }

    fn parse(alloc: Global, value: Option<Value>) -> Made<InputValueResult<i32>> {
        let given = value.unwrap_or(Value::Null);
        match small_number(&given) {
            Some(number) => {
                drop(given);
                Ok(Ok(number))
            }
            None => Ok(Err(InputValueError::expected(alloc, "Int", given)?)),
        }
    }

    fn to_value(&self, _alloc: Global) -> Made<Value> {
        Ok(Value::Number(Number::from_i64(i64::from(*self))))
    }

    fn as_raw_value(&self) -> Option<&i32> {
        Some(self)
    }
}

impl InputType for Text {
    ghost use Rattle.std.specs.Prelude.{Some, codes};
    ghost use Rattle.gql_base.specs.Kinds.{string_of};
    ghost use Rattle.gql_base.specs.declared.value.Value.TheVariants as value;
    ghost use Rattle.gql_input.specs.InputType.{read_as};

    type RawValueType = Text;

    ghost name = { codes "String" };

    ghost qualified = { codes "String!" };

    ghost read = { read_as string_of (codes "String") };

    ghost shown = { value.String };

    ghost raw = { λ text. Some text };

    fn type_name() -> &'static str {
        "String"
    }

    fn qualified_type_name(alloc: Global) -> Made<Text> {
        Text::new(alloc, "String!")
    }

    fn parse(alloc: Global, value: Option<Value>) -> Made<InputValueResult<Text>> {
        match value.unwrap_or(Value::Null) {
            Value::String(text) => Ok(Ok(text)),
            other => Ok(Err(InputValueError::expected(alloc, "String", other)?)),
        }
    }

    fn to_value(&self, alloc: Global) -> Made<Value> {
        Ok(Value::String(self.try_clone(alloc)?))
    }

    fn as_raw_value(&self) -> Option<&Text> {
        Some(self)
    }
}

/// Null and what is absent are `None`.
impl<T: InputType + Drop> InputType for Option<T> {
    ghost use Rattle.std.specs.Prelude.{option_and_then};
    ghost use Rattle.gql_input.specs.InputType.{read_nullable, shown_or_null};

    type RawValueType = T::RawValueType;

    ghost name = { T.name };

    ghost qualified = { T.name };

    ghost read = { read_nullable T.read };

    ghost shown = { shown_or_null T.shown };

    ghost raw = { option_and_then T.raw };

    fn type_name() -> &'static str {
        T::type_name()
    }

    fn qualified_type_name(alloc: Global) -> Made<Text> {
        Text::new(alloc, T::type_name())
    }

    fn parse(alloc: Global, value: Option<Value>) -> Made<InputValueResult<Option<T>>> {
        match value {
            None | Some(Value::Null) => Ok(Ok(None)),
            Some(given) => match T::parse(alloc, Some(given))? {
                Ok(read) => Ok(Ok(Some(read))),
                Err(error) => Ok(Err(error.retyped())),
            },
        }
    }

    fn to_value(&self, alloc: Global) -> Made<Value> {
        match self {
            Some(held) => held.to_value(alloc),
            None => Ok(Value::Null),
        }
    }

    fn as_raw_value(&self) -> Option<&T::RawValueType> {
        match self {
            Some(held) => held.as_raw_value(),
            None => None,
        }
    }
}

impl<T: InputType + Drop> InputType for Boxed<T> {
    type RawValueType = T::RawValueType;

    ghost name = { T.name };

    ghost qualified = { T.qualified };

    ghost read = { T.read };

    ghost shown = { T.shown };

    ghost raw = { T.raw };

    fn type_name() -> &'static str {
        T::type_name()
    }

    fn qualified_type_name(alloc: Global) -> Made<Text> {
        T::qualified_type_name(alloc)
    }

    fn parse(alloc: Global, value: Option<Value>) -> Made<InputValueResult<Boxed<T>>> {
        match T::parse(alloc, value)? {
            Ok(read) => Ok(Ok(Boxed::new(alloc, read)?)),
            Err(error) => Ok(Err(error.retyped())),
        }
    }

    fn to_value(&self, alloc: Global) -> Made<Value> {
        self.get().to_value(alloc)
    }

    fn as_raw_value(&self) -> Option<&T::RawValueType> {
        self.get().as_raw_value()
    }
}

/// The number that a value is, where it has 32 bits with its sign.
fn small_number(value: &Value) -> Option<i32>
    ensures { result ≡ small_number_of value.now }
{
    match value {
        Value::Number(number) => number.as_i32(),
        _ => None,
    }
}
