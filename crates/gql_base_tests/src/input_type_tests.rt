//! The input types, each public call once, at values that are made by small functions.
use crate::input_error_tests::message_of;
use gql_base::{Boxed, Made, Number, Text, Value, literal_of};
use gql_input::InputType;
use std::alloc::Global;
use std::test::Fail;

fn number(number: i64) -> Option<Value> {
    Some(Value::Number(Number::from_i64(number)))
}

fn string(alloc: Global, text: &str) -> Made<Option<Value>> {
    Ok(Some(Value::String(Text::new(alloc, text)?)))
}

/// The literal of the value that stands for one of an input type.
pub(crate) fn shown<T: InputType>(alloc: Global, read: &T) -> Made<Text> {
    let value = read.to_value(alloc)?;
    literal_of(alloc, &value)
}

/// The literal of what is read of a value, or the message of its refusal.
fn given<T: InputType + Drop>(alloc: Global, value: Option<Value>) -> Made<Text> {
    match T::parse(alloc, value)? {
        Ok(read) => shown(alloc, &read),
        Err(error) => message_of(alloc, error),
    }
}

/// Whether this is read of a value, as a literal.
fn gives<T: InputType + Drop>(alloc: Global, value: Option<Value>, literal: &str) -> Made<bool> {
    Ok(given::<T>(alloc, value)?.as_str() == literal)
}

#[test]
fn values_of_input_types(rt: HostRuntime) -> Result<(), Fail> {
    let alloc = rt.alloc();
    assert!(rt; gives::<bool>(alloc, Some(Value::Boolean(true)), "true")?);
    assert!(rt; gives::<i32>(alloc, number(7), "7")?);
    assert!(rt; gives::<Text>(alloc, string(alloc, "a")?, r#""a""#)?);
    Ok(())
}

#[test]
fn values_of_options_and_boxes(rt: HostRuntime) -> Result<(), Fail> {
    let alloc = rt.alloc();
    assert!(rt; gives::<Option<i32>>(alloc, Some(Value::Null), "null")?);
    assert!(rt; gives::<Option<i32>>(alloc, number(-3), "-3")?);
    assert!(rt; gives::<Boxed<bool>>(alloc, Some(Value::Boolean(false)), "false")?);
    Ok(())
}

/// What a value of an input type is at its heart, where that can be copied.
pub(crate) fn heart<R: Copy, T: InputType<RawValueType = R>>(value: &T) -> Option<R> {
    value.as_raw_value().copied()
}

/// Whether a text is at its own heart.
fn is_own_heart(text: &Text) -> bool {
    text.as_raw_value() == Some(text)
}

#[test]
fn hearts_of_values(rt: HostRuntime) -> Result<(), Fail> {
    let alloc = rt.alloc();
    assert!(rt; heart(&true) == Some(true));
    assert!(rt; heart(&7i32) == Some(7));
    assert!(rt; is_own_heart(&Text::new(alloc, "a")?));
    assert!(rt; heart(&Some(3i32)) == Some(3));
    assert!(rt; heart(&Boxed::new(alloc, false)?) == Some(false));
    Ok(())
}

/// The name of a type.
pub(crate) fn named<T: InputType>() -> &'static str {
    T::type_name()
}

/// Whether this is the name of a type with its mark.
pub(crate) fn is_qualified<T: InputType>(alloc: Global, name: &str) -> Made<bool> {
    Ok(T::qualified_type_name(alloc)?.as_str() == name)
}

#[test]
fn names_of_types(rt: HostRuntime) -> Result<(), Fail> {
    assert!(rt; named::<bool>() == "Boolean");
    assert!(rt; named::<i32>() == "Int");
    assert!(rt; named::<Text>() == "String");
    assert!(rt; named::<Option<Text>>() == "String");
    assert!(rt; named::<Boxed<i32>>() == "Int");
    Ok(())
}

#[test]
fn names_of_types_with_their_marks(rt: HostRuntime) -> Result<(), Fail> {
    let alloc = rt.alloc();
    assert!(rt; is_qualified::<Boxed<i32>>(alloc, "Int!")?);
    assert!(rt; is_qualified::<Option<i32>>(alloc, "Int")?);
    assert!(rt; is_qualified::<bool>(alloc, "Boolean!")?);
    assert!(rt; is_qualified::<Text>(alloc, "String!")?);
    Ok(())
}
