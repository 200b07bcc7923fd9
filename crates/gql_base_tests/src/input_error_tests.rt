//! Errors of inputs: each call that makes or changes one, by the message that it gives.
use gql_base::{Made, Number, Pos, Text, Value};
use gql_input::{InputType, InputValueError};
use std::alloc::Global;
use std::test::Fail;

/// The message of an error of an input.
pub(crate) fn message_of<T: InputType>(alloc: Global, error: InputValueError<T>) -> Made<Text> {
    let server = error.into_server_error(alloc, Pos { line: 1, column: 2 })?;
    Ok(server.message)
}

/// The JSON text of an error of an input, placed.
fn placed<T: InputType>(alloc: Global, error: InputValueError<T>) -> Made<Text> {
    let server = error.into_server_error(alloc, Pos { line: 1, column: 2 })?;
    server.json(alloc)
}

/// The message that a value isn't of an input type.
pub(crate) fn expected<T: InputType>(alloc: Global, actual: Value) -> Made<Text> {
    message_of(alloc, InputValueError::<T>::expected_type(alloc, actual)?)
}

#[test]
fn values_of_another_kind(rt: HostRuntime) -> Result<(), Fail> {
    let alloc = rt.alloc();
    assert_eq!(rt;
        expected::<i32>(alloc, Value::Boolean(true))?.as_str(),
        r#"Expected input type "Int", found true."#
    );
    Ok(())
}

/// The message that a value isn't of the type of a name.
fn expected_at(alloc: Global, name: &str, actual: Value) -> Made<Text> {
    message_of(
        alloc,
        InputValueError::<bool>::expected(alloc, name, actual)?,
    )
}

/// The message that a value of the type of a name is refused for a reason.
fn refused_at(alloc: Global, name: &str, reason: &str) -> Made<Text> {
    message_of(
        alloc,
        InputValueError::<bool>::refused(alloc, name, reason)?,
    )
}

#[test]
fn errors_at_a_name(rt: HostRuntime) -> Result<(), Fail> {
    let alloc = rt.alloc();
    assert_eq!(rt;
        expected_at(alloc, "Colour", Value::Number(Number::from_i64(1)))?.as_str(),
        r#"Expected input type "Colour", found 1."#
    );
    assert_eq!(rt;
        refused_at(alloc, "Colour", "no")?.as_str(),
        r#"Failed to parse "Colour": no"#
    );
    Ok(())
}

/// A refusal at `Int`.
fn refusal(alloc: Global) -> Made<InputValueError<i32>> {
    InputValueError::<i32>::custom(alloc, "no")
}

/// A refusal at `Int`, told of another input type.
fn propagated<T: InputType>(alloc: Global) -> Made<Text> {
    message_of(alloc, refusal(alloc)?.propagate::<T>(alloc)?)
}

#[test]
fn a_refusal_told_of_other_types(rt: HostRuntime) -> Result<(), Fail> {
    let alloc = rt.alloc();
    assert_eq!(rt;
        propagated::<Text>(alloc)?.as_str(),
        r#"Failed to parse "Int": no (occurred while parsing "String")"#
    );
    Ok(())
}

/// A refusal at `Int` with an extension, told of `String`.
fn extended(alloc: Global) -> Made<Text> {
    let error = refusal(alloc)?.with_extension(alloc, "code", Value::Null)?;
    placed(alloc, error.propagate::<Text>(alloc)?)
}

/// A refusal at `Int` with an extension, as an error of `String`.
fn retyped(alloc: Global) -> Made<Text> {
    let error = refusal(alloc)?.with_extension(alloc, "code", Value::Null)?;
    placed(alloc, error.retyped::<Text>())
}

#[test]
fn refusals_with_an_extension(rt: HostRuntime) -> Result<(), Fail> {
    assert_eq!(rt;
        extended(rt.alloc())?.as_str(),
        r#"{"message":"Failed to parse \"Int\": no (occurred while parsing \"String\")","locations":[{"line":1,"column":2}],"extensions":{"code":null}}"#
    );
    assert_eq!(rt;
        retyped(rt.alloc())?.as_str(),
        r#"{"message":"Failed to parse \"Int\": no","locations":[{"line":1,"column":2}],"extensions":{"code":null}}"#
    );
    Ok(())
}
