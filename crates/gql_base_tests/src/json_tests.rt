//! Values and types as texts, and values read from JSON.
use crate::tests::{copies, sample};
use gql_base::{
    Copied, EnumForm, JsonPlace, Made, Name, Number, Text, TypeRef, Value, from_json, is_name,
    literal_of, push_comma, push_json, push_name, push_quoted, push_type, read_value,
};
use std::alloc::Global;
use std::test::Fail;

/// The two readings of a number, and its text.
fn number_text(alloc: Global, number: Number) -> Made<Text> {
    let signed = number.as_i64();
    let unsigned = number.as_u64();
    let text = format!(in alloc; "{number} {signed:?} {unsigned:?}")?;
    Text::from_string(text)
}

/// Whether a number has these readings and this text.
fn has_text(alloc: Global, number: Number, text: &str) -> Made<bool> {
    Ok(number_text(alloc, number)?.as_str() == text)
}

/// What is wanted of the first number of a table that has something else.
fn first_wrong_number(
    alloc: Global,
    table: &[(Number, &'static str)],
) -> Made<Option<&'static str>> {
    for (number, text) in table {
        if !has_text(alloc, *number, text)? {
            return Ok(Some(*text));
        }
    }
    Ok(None)
}

#[test]
fn numbers(rt: HostRuntime) -> Result<(), Fail> {
    let table = [
        (Number::from_i64(-1), "-1 Some(-1) None"),
        (
            Number::from_i64(i64::MIN),
            "-9223372036854775808 Some(-9223372036854775808) None",
        ),
        (Number::from_i64(0), "0 Some(0) Some(0)"),
        (Number::from_u64(7), "7 Some(7) Some(7)"),
        (
            Number::from_u64(u64::MAX),
            "18446744073709551615 None Some(18446744073709551615)",
        ),
    ];
    assert_eq!(rt; first_wrong_number(rt.alloc(), &table)?, None);
    assert!(rt; copies(rt.alloc(), &Number::from_i64(-5))?);
    Ok(())
}

/// The steps to a place, each after a blank.
fn place_text(alloc: Global, place: JsonPlace) -> Made<Text> {
    let mut out = String::from_str(alloc, "bad")?;
    let mut place = place.try_clone(alloc)?;
    while let Some(step) = place.next_step() {
        write!(out, " {step}")?;
    }
    Text::from_string(out)
}

/// The literal of what is read from a JSON text, or the bad place.
fn read_text(alloc: Global, form: EnumForm, text: &str) -> Result<Text, Fail> {
    let json = serde_json::Value::from_str(alloc, text)?;
    match read_value(alloc, form, &json)? {
        Ok(value) => Ok(literal_of(alloc, &value)?),
        Err(place) => Ok(place_text(alloc, place)?),
    }
}

/// JSON texts, each with what is read of it.
const READ: [(&str, &str); 6] = [
    ("-1", "-1"),
    ("18446744073709551615", "18446744073709551615"),
    (
        r#"{"b":[null,"x"],"a":true}"#,
        r#"{a: true, b: [null, "x"]}"#,
    ),
    (r#"{"$enum":"A"}"#, r#"{$enum: "A"}"#),
    ("1.5", "bad"),
    (r#"[0,{"a":18446744073709551616}]"#, "bad 1 a"),
];

/// Whether this is read of a JSON text.
fn gives(alloc: Global, text: &str, read: &str) -> Result<bool, Fail> {
    Ok(read_text(alloc, EnumForm::Plain, text)?.as_str() == read)
}

/// The first JSON text of a table of which something else is read.
fn first_wrong_text(
    alloc: Global,
    table: &[(&'static str, &'static str)],
) -> Result<Option<&'static str>, Fail> {
    for (text, read) in table {
        if !gives(alloc, text, read)? {
            return Ok(Some(*text));
        }
    }
    Ok(None)
}

#[test]
fn plain_values_from_json(rt: HostRuntime) -> Result<(), Fail> {
    assert_eq!(rt; first_wrong_text(rt.alloc(), &READ)?, None);
    Ok(())
}

/// Whether the number of a JSON text is supported.
fn is_supported(alloc: Global, text: &str) -> Result<bool, Fail> {
    let json = serde_json::Value::from_str(alloc, text)?;
    Ok(from_json(alloc, &json)?.is_ok())
}

#[test]
fn parts_are_read(rt: HostRuntime) -> Result<(), Fail> {
    assert!(rt; is_supported(rt.alloc(), "7")?);
    assert!(rt; is_name("_a1"));
    Ok(())
}

fn sample_copies(alloc: Global) -> Made<bool> {
    let value = sample(alloc)?;
    copies(alloc, &value)
}

#[test]
fn objects_are_copied(rt: HostRuntime) -> Result<(), Fail> {
    assert!(rt; sample_copies(rt.alloc())?);
    Ok(())
}

#[test]
fn parts_of_json(rt: HostRuntime) -> Result<(), Fail> {
    let mut out = String::new(rt.alloc());
    push_comma(&mut out, 0)?;
    push_name(&mut out, "k")?;
    push_json(&mut out, &Value::Enum(Name::new(rt.alloc(), "RED")?))?;
    push_comma(&mut out, 1)?;
    push_quoted(&mut out, "\"\\/\u{8}\u{c}\n\r\t\u{1}\u{1f}\u{7f}é")?;
    assert_eq!(rt;
        out.as_str(),
        "\"k\":\"RED\",\"\\\"\\\\/\\b\\f\\n\\r\\t\\u0001\\u001f\u{7f}é\""
    );
    Ok(())
}

/// Whether a type is written so.
fn is_written(alloc: Global, ty: TypeRef, text: &str) -> Made<bool> {
    let mut out = String::new(alloc);
    push_type(&mut out, &ty)?;
    Ok(out.as_str() == text)
}

#[test]
fn types(rt: HostRuntime) -> Result<(), Fail> {
    let alloc = rt.alloc();
    assert!(rt; is_written(alloc, TypeRef::named(alloc, TypeRef::INT)?, "Int")?);
    assert!(rt; is_written(alloc, TypeRef::named_nn(alloc, TypeRef::ID)?, "ID!")?);
    let texts = TypeRef::named_list(alloc, TypeRef::STRING)?;
    assert!(rt; is_written(alloc, texts, "[String]")?);
    let truths = TypeRef::named_list_nn(alloc, TypeRef::BOOLEAN)?;
    assert!(rt; is_written(alloc, truths, "[Boolean]!")?);
    assert!(rt; is_written(alloc, TypeRef::named_nn_list(alloc, "A")?, "[A!]")?);
    assert!(rt; is_written(alloc, TypeRef::named_nn_list_nn(alloc, "B")?, "[B!]!")?);
    Ok(())
}

/// A type's text after its innermost name, and whether it is nullable and its copy equals it.
fn type_parts(alloc: Global, ty: TypeRef) -> Made<Text> {
    let nullable = ty.is_nullable();
    let same = copies(alloc, &ty)?;
    let text = ty.text(alloc)?;
    let name = ty.type_name();
    Text::from_string(format!(in alloc; "{name} {text} {nullable} {same}")?)
}

#[test]
fn parts_of_types(rt: HostRuntime) -> Result<(), Fail> {
    let alloc = rt.alloc();
    let ty = TypeRef::named_nn_list(alloc, "A")?
        .list(alloc)?
        .non_null(alloc)?;
    assert_eq!(rt; type_parts(alloc, ty)?.as_str(), "A [[A!]]! false true");
    Ok(())
}
