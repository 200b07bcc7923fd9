//! Values as resolvers read them: each public call once, over values that are made by small functions, since a test is proved too.
use crate::enum_tests::Colour;
use gql_base::{Items, Made, Name, Number, Pairs, Text, Value};
use gql_input::{
    AccessFault, EnumItem, InputValueError, Keys, ListAccessor, ListItems, Members, ObjectAccessor,
    ValueAccessor, Values,
};
use std::alloc::Global;
use std::test::Fail;

/// The members `a`, which is -1, and `b`, which is `RED`.
fn members(alloc: Global) -> Made<Pairs<Value>> {
    let mut members = Pairs::new(alloc);
    members.add(Name::new(alloc, "a")?, Value::Number(Number::from_i64(-1)))?;
    members.add(
        Name::new(alloc, "b")?,
        Value::Enum(Name::new(alloc, "RED")?),
    )?;
    Ok(members)
}

/// The values true and null.
fn items(alloc: Global) -> Made<Items<Value>> {
    let mut items = Items::new(alloc);
    items.push(Value::Boolean(true))?;
    items.push(Value::Null)?;
    Ok(items)
}

/// Whether each reader of an object reads these members.
fn reads_members(value: &Value) -> Result<bool, AccessFault<'static>> {
    let object = ValueAccessor::new(value).object()?;
    let a = object.try_get("a")?;
    let b = object.try_get("b")?;
    let sizes = object.len() == 2 && object.as_index_map().len() == 2 && !object.is_empty();
    Ok(
        sizes
            && a.i64()? == -1
            && a.u64().is_err()
            && b.enum_name()? == "RED"
            && object.get("c").is_none(),
    )
}

/// Whether the iterators over an object give these members in their order.
fn gives_members(object: ObjectAccessor<'_>) -> bool {
    let mut members = object.iter();
    let first = match members.next() {
        Some((name, value)) => name == "a" && value.i64().is_ok(),
        None => false,
    };
    let mut keys = object.keys();
    let both = keys.next() == Some("a") && keys.next() == Some("b") && keys.next().is_none();
    first && both && object.values().count() == 2
}

fn reads_object(value: &Value) -> bool {
    match ValueAccessor::new(value).object() {
        Ok(object) => gives_members(object),
        Err(_) => false,
    }
}

#[test]
fn objects(rt: HostRuntime) -> Result<(), Fail> {
    let value = Value::object(rt.alloc(), members(rt.alloc())?)?;
    assert!(rt; matches!(reads_members(&value), Ok(true)));
    assert!(rt; reads_object(&value));
    Ok(())
}

/// Whether each reader of a list reads these items.
fn reads_items(value: &Value) -> Result<bool, AccessFault<'static>> {
    let list = ValueAccessor::new(value).list()?;
    let truth = list.try_get(0)?;
    let null = list.try_get(1)?;
    let last = list.as_slice(1, 2)?;
    let none = list.as_slice(2, 2)?;
    let sizes = list.len() == 2 && last.as_values_slice().len() == 1 && none.is_empty();
    Ok(
        sizes
            && truth.boolean()?
            && null.is_null()
            && list.get(2).is_none()
            && list.as_slice(2, 1).is_err()
            && list.iter().count() == 2,
    )
}

#[test]
fn lists(rt: HostRuntime) -> Result<(), Fail> {
    let value = Value::list(rt.alloc(), items(rt.alloc())?)?;
    assert!(rt; matches!(reads_items(&value), Ok(true)));
    Ok(())
}

/// Whether each reader of a string reads this text.
fn reads_text(value: &Value, text: &str) -> Result<bool, AccessFault<'static>> {
    let accessor = ValueAccessor::new(value);
    Ok(
        accessor.string()? == text
            && accessor.enum_name()? == text
            && accessor.boolean().is_err()
            && *accessor.as_value() == *value,
    )
}

#[test]
fn texts(rt: HostRuntime) -> Result<(), Fail> {
    let value = Value::String(Text::new(rt.alloc(), "red")?);
    assert!(rt; matches!(reads_text(&value, "red"), Ok(true)));
    Ok(())
}

#[test]
fn great_numbers(rt: HostRuntime) -> Result<(), Fail> {
    let number = Value::Number(Number::from_u64(u64::MAX));
    assert_eq!(rt; ValueAccessor::new(&number).u64().ok(), Some(u64::MAX));
    Ok(())
}

/// Faults of accessors, each with its text.
const FAULTS: [(AccessFault<'static>, &str); 13] = [
    (AccessFault::NotBoolean, "internal: not a boolean"),
    (AccessFault::NotEnumName, "internal: not an enum name"),
    (AccessFault::NotSigned, "internal: not an signed integer"),
    (
        AccessFault::NotUnsigned,
        "internal: not an unsigned integer",
    ),
    (AccessFault::NotString, "internal: not a string"),
    (AccessFault::NotObject, "internal: not an object"),
    (AccessFault::NotList, "internal: not a list"),
    (AccessFault::NoKey("c"), r#"internal: key "c" not found"#),
    (
        AccessFault::NoIndex(12),
        r#"internal: index "12" not found"#,
    ),
    (AccessFault::BadSlice, "internal: invalid slice indices"),
    (AccessFault::NotValue, "internal: not a Value"),
    (AccessFault::NotFieldList, "internal: not a List"),
    (AccessFault::NotOwn, "internal: not an own value"),
];

/// Whether a fault has this text.
fn has_text(alloc: Global, fault: AccessFault<'_>, text: &str) -> Made<bool> {
    Ok(fault.into_error(alloc)?.message.as_str() == text)
}

/// What is wanted of the first fault of a table that has another text.
fn first_wrong_fault(
    alloc: Global,
    table: &[(AccessFault<'static>, &'static str)],
) -> Made<Option<&'static str>> {
    for (fault, text) in table {
        if !has_text(alloc, *fault, text)? {
            return Ok(Some(*text));
        }
    }
    Ok(None)
}

#[test]
fn texts_of_faults(rt: HostRuntime) -> Result<(), Fail> {
    assert_eq!(rt; first_wrong_fault(rt.alloc(), &FAULTS)?, None);
    Ok(())
}

#[test]
fn accessors_of_parts(rt: HostRuntime) -> Result<(), Fail> {
    let alloc = rt.alloc();
    let members = Pairs::new(alloc);
    assert!(rt; ObjectAccessor::new(&members).is_empty());
    assert!(rt; ListAccessor::new(&[]).is_empty());
    Ok(())
}

fn is_send_sync<T: Send + Sync>() {}

#[test]
fn types_can_be_shared() {
    is_send_sync::<AccessFault<'static>>();
    is_send_sync::<EnumItem<Colour>>();
    is_send_sync::<Keys<'static>>();
    is_send_sync::<ListAccessor<'static>>();
    is_send_sync::<ListItems<'static>>();
    is_send_sync::<Members<'static>>();
    is_send_sync::<ObjectAccessor<'static>>();
    is_send_sync::<ValueAccessor<'static>>();
    is_send_sync::<Values<'static>>();
}

#[test]
fn errors_can_be_shared() {
    is_send_sync::<InputValueError<bool>>();
}
