//! Errors, their extensions and their texts.
use crate::tests::copies;
use gql_base::{
    Error, ErrorExtensionValues, ErrorExtensions, Items, Made, Number, PathSegment, Pos, ResultExt,
    ServerError, Text, Told, Value, push_error, push_errors, push_extension_values,
};
use std::alloc::Global;
use std::test::Fail;

/// The extensions b: 2, a: true, in this order of setting.
fn extensions(alloc: Global) -> Made<ErrorExtensionValues> {
    let mut values = ErrorExtensionValues::new(alloc);
    values.set("b", Value::Null)?;
    values.set("a", Value::Boolean(true))?;
    values.set("b", Value::Number(Number::from_i64(2)))?;
    Ok(values)
}

/// The JSON text of the extensions.
fn extensions_text(alloc: Global) -> Made<Text> {
    let values = extensions(alloc)?;
    let mut out = String::new(alloc);
    push_extension_values(&mut out, &values)?;
    Text::from_string(out)
}

/// Whether the extension b alone is left.
fn is_left(values: &ErrorExtensionValues) -> bool {
    values.len() == 1 && values.at(0).0 == "b" && values.get("a").is_none()
}

#[test]
fn extension_values(rt: HostRuntime) -> Result<(), Fail> {
    assert!(rt; extensions_text(rt.alloc())?.as_str() == r#"{"a":true,"b":2}"#);
    let mut values = extensions(rt.alloc())?;
    values.unset("c");
    values.unset("a");
    assert!(rt; is_left(&values));
    Ok(())
}

/// The error "m" with a location, the path a, 0, and the extensions.
fn full_error(alloc: Global) -> Made<ServerError> {
    let mut error = ServerError::new(alloc, "m", Some(Pos { line: 1, column: 2 }))?;
    error.path.push(PathSegment::Field(Text::new(alloc, "a")?))?;
    error.path.push(PathSegment::Index(0))?;
    error.extensions = Some(extensions(alloc)?);
    Ok(error)
}

const FULL: &str =
    r#"{"message":"m","locations":[{"line":1,"column":2}],"path":["a",0],"extensions":{"a":true,"b":2}}"#;

fn full_text(alloc: Global) -> Made<Text> {
    let error = full_error(alloc)?;
    error.json(alloc)
}

fn full_copies(alloc: Global) -> Made<bool> {
    let error = full_error(alloc)?;
    copies(alloc, &error)
}

#[test]
fn errors_with_all_parts(rt: HostRuntime) -> Result<(), Fail> {
    assert_eq!(rt; full_text(rt.alloc())?.as_str(), FULL);
    assert!(rt; full_copies(rt.alloc())?);
    Ok(())
}

/// The list of an error with a message alone, after it was at another path.
fn bare_list(alloc: Global) -> Made<Items<ServerError>> {
    let bare = ServerError::new(alloc, r#"say "no""#, None)?;
    bare.with_path(Items::new(alloc)).into_list(alloc)
}

#[test]
fn errors_with_a_message(rt: HostRuntime) -> Result<(), Fail> {
    let errors = bare_list(rt.alloc())?;
    let mut out = String::new(rt.alloc());
    push_errors(&mut out, errors.as_slice())?;
    assert_eq!(rt; out.as_str(), r#"[{"message":"say \"no\""}]"#);
    Ok(())
}

#[test]
fn errors_as_messages(rt: HostRuntime) -> Result<(), Fail> {
    let bare = ServerError::new(rt.alloc(), "no", None)?;
    let mut out = String::new(rt.alloc());
    push_error(&mut out, &bare)?;
    write!(out, " {bare}")?;
    assert_eq!(rt; out.as_str(), r#"{"message":"no"} no"#);
    Ok(())
}

/// The JSON text of an error of a resolver, placed.
fn placed_text(alloc: Global, error: Error) -> Made<Text> {
    error
        .into_server_error(alloc, Pos { line: 1, column: 4 })?
        .json(alloc)
}

/// The error "e" with the values a: null and then a: false beside it.
fn told_twice(alloc: Global) -> Made<Error> {
    let error = Told("e").extend_with(alloc, |_, values| values.set("a", Value::Null))?;
    error.extend_with(alloc, |_, values| values.set("a", Value::Boolean(false)))
}

#[test]
fn errors_of_a_resolver(rt: HostRuntime) -> Result<(), Fail> {
    let alloc = rt.alloc();
    assert_eq!(rt;
        placed_text(alloc, told_twice(alloc)?)?.as_str(),
        r#"{"message":"e","locations":[{"line":1,"column":4}],"extensions":{"a":false}}"#
    );
    Ok(())
}

/// The message of a failure, or none of a value.
fn message_of(answer: Result<u8, Error>) -> Option<Text> {
    match answer {
        Ok(_) => None,
        Err(error) => Some(error.message),
    }
}

fn failed(alloc: Global) -> Made<Result<u8, Error>> {
    let result: Result<u8, Told<'static>> = Err(Told("f"));
    result.extend_err(alloc, |_, values| values.set("a", Value::Null))
}

#[test]
fn results_of_a_resolver(rt: HostRuntime) -> Result<(), Fail> {
    assert!(rt; message_of(failed(rt.alloc())?) == Some(Text::new(rt.alloc(), "f")?));
    Ok(())
}
