//! Types of every kind are read in their table as they were built, and copied. What a test looks at
//! is borrowed by small functions beside it, since a test is proved too.
use crate::schema_sample::table;
use gql_base::{Copied, Made, Name, Number, Text, Value};
use gql_schema::{
    DeclaredField, Enum, Field, InputObject, InputValue, Interface, InterfaceField, NameSet, Named,
    Object, Same, Scalar, ScalarRule, SchemaError, SchemaRule, SchemaType, Subscription,
    SubscriptionField, Types, Union,
};
use std::alloc::Global;
use std::test::Fail;

/// Whether a field has the type `Int`, this number and the one argument `a`.
fn is_declared(field: DeclaredField<'_>, number: Option<u32>) -> bool {
    let is_int = field.ty.type_name() == "Int" && field.number == number;
    is_int && field.arguments.len() == 1 && is_argument(field.arguments.get("a"))
}

/// Whether this is the argument `a` with a default.
fn is_argument(argument: Option<&InputValue>) -> bool {
    match argument {
        Some(argument) => argument.own_name() == "a" && argument.default().is_some(),
        None => false,
    }
}

/// Whether a type declares the field `f`, with this number.
fn declares(ty: &SchemaType, number: Option<u32>) -> bool {
    match ty.declared("f") {
        Some(field) => is_declared(field, number),
        None => false,
    }
}

/// Whether this is the field `f: Int` of the resolver 7, with one argument.
fn is_field(name: &str, field: &Field) -> bool {
    name == "f"
        && field.name() == "f"
        && field.ty().type_name() == "Int"
        && field.resolver() == 7
        && field.arguments().len() == 1
}

fn is_object(object: &Object) -> bool {
    if object.len() != 1 {
        return false;
    }
    let (name, field) = object.entry(0);
    is_field(name, field)
        && is_field("f", object.at(0))
        && object.type_name() == "O"
        && object.implements("I")
        && object.interfaces().len() == 1
        && object.keys().len() == 1
}

/// Whether this is the field `f: Int` of an interface, with one argument.
fn is_promised(name: &str, field: &InterfaceField) -> bool {
    name == "f"
        && field.name() == "f"
        && field.ty().type_name() == "Int"
        && field.arguments().len() == 1
}

fn is_interface(interface: &Interface) -> bool {
    if interface.len() != 1 {
        return false;
    }
    let (name, field) = interface.entry(0);
    is_promised(name, field)
        && is_promised("f", interface.at(0))
        && interface.type_name() == "I"
        && interface.has_field("f")
        && interface.get("f").is_some()
}

/// Whether this is the field `f: Int` of the source 9, with one argument.
fn is_event(name: &str, field: &SubscriptionField) -> bool {
    name == "f"
        && field.name() == "f"
        && field.ty().type_name() == "Int"
        && field.source() == 9
        && field.arguments().len() == 1
}

fn is_subscription(subscription: &Subscription) -> bool {
    if subscription.len() != 1 {
        return false;
    }
    let (name, field) = subscription.entry(0);
    is_event(name, field)
        && is_event("f", subscription.at(0))
        && subscription.type_name() == "S"
        && subscription.has_field("f")
        && subscription.get("f").is_some()
}

/// Whether this is the field `a: Int` without a default.
fn is_input(name: &str, field: &InputValue) -> bool {
    name == "a"
        && field.name() == "a"
        && field.ty().type_name() == "Int"
        && field.default().is_none()
}

fn is_input_object(input: &InputObject) -> bool {
    if input.len() != 1 {
        return false;
    }
    let (name, field) = input.entry(0);
    is_input(name, field)
        && is_input("a", input.at(0))
        && input.type_name() == "In"
        && input.is_oneof()
        && input.has_field("a")
        && input.get("a").is_some()
}

fn is_enum(items: &Enum) -> bool {
    items.type_name() == "E" && items.items().has("B")
}

fn is_union(members: &Union) -> bool {
    members.type_name() == "U" && members.members().len() == 1
}

fn is_scalar(scalar: &Scalar) -> bool {
    scalar.type_name() == "D" && scalar.own_name() == "D"
}

/// Whether a type tells what was built of its kind. Fields are declared by objects, interfaces and
/// subscriptions alone.
fn is_read(ty: &SchemaType) -> bool {
    match ty {
        SchemaType::Object(object) => is_object(object) && declares(ty, Some(7)),
        SchemaType::Interface(interface) => is_interface(interface) && declares(ty, None),
        SchemaType::Subscription(subscription) => {
            is_subscription(subscription) && declares(ty, Some(9))
        }
        SchemaType::InputObject(input) => is_input_object(input) && ty.declared("a").is_none(),
        SchemaType::Enum(items) => is_enum(items),
        SchemaType::Union(members) => is_union(members),
        SchemaType::Scalar(scalar) => is_scalar(scalar),
    }
}

/// The name of the first type of a table that doesn't tell what was built, or that stands under
/// another name or elsewhere than in this list.
fn first_wrong(types: &Types, names: &[&'static str]) -> Option<&'static str> {
    for (place, name) in names.iter().enumerate() {
        if !stands_at(types, place, *name) {
            return Some(*name);
        }
    }
    None
}

fn stands_at(types: &Types, place: usize, name: &str) -> bool {
    if place >= types.len() {
        return false;
    }
    let (own, ty) = types.entry(place);
    own == name && ty.name() == name && types.place_of(name) == Some(place) && is_read(ty)
}

#[test]
fn types_are_read(rt: HostRuntime) -> Result<(), Fail> {
    let types = table(rt.alloc())?;
    assert!(rt; types.len() == 7);
    assert!(rt; first_wrong(&types, &["O", "I", "S", "In", "E", "U", "D"]) == None);
    Ok(())
}

/// Whether a copy of the table equals it.
fn table_is_copied(alloc: Global) -> Made<bool> {
    let types = table(alloc)?;
    let copy = types.try_clone(alloc)?;
    Ok(types.equals(&copy) && copy.len() == 7)
}

/// Whether the copy of the object at the front of a table equals it.
fn object_is_copied(alloc: Global, types: &Types) -> Made<bool> {
    match types.get("O") {
        Some(SchemaType::Object(object)) => Ok(object.same(&object.try_clone(alloc)?)),
        _ => Ok(false),
    }
}

/// Whether the copy of an error is the same.
fn error_is_copied(alloc: Global) -> Made<bool> {
    let text = Text::new(alloc, "t")?;
    let error = SchemaError { rule: 1, text };
    Ok(error.same(&error.try_clone(alloc)?))
}

#[test]
fn copies_are_the_same(rt: HostRuntime) -> Result<(), Fail> {
    assert!(rt; table_is_copied(rt.alloc())?);
    assert!(rt; error_is_copied(rt.alloc())?);
    assert!(rt; SchemaRule::Unfit.try_clone(rt.alloc())?.number() == 9);
    let types = table(rt.alloc())?;
    assert!(rt; object_is_copied(rt.alloc(), &types)?);
    Ok(())
}

fn union_is_made(alloc: Global) -> Made<bool> {
    let members = Union::with_members(Name::new(alloc, "U")?, NameSet::new(alloc));
    Ok(members.type_name() == "U" && members.members().len() == 0)
}

fn subscription_is_made(alloc: Global) -> Made<bool> {
    Ok(Subscription::new(alloc, "S")?.len() == 0)
}

#[test]
fn small_types_are_made(rt: HostRuntime) -> Result<(), Fail> {
    assert!(rt; union_is_made(rt.alloc())?);
    assert!(rt; subscription_is_made(rt.alloc())?);
    Ok(())
}

/// Whether a rule takes a string, a whole number and a truth value, in this order.
fn taken(alloc: Global, rule: &ScalarRule) -> Made<[bool; 3]> {
    let string = rule.takes(&Value::String(Text::new(alloc, "x")?));
    let number = rule.takes(&Value::Number(Number::from_i64(5)));
    Ok([string, number, rule.takes(&Value::Boolean(true))])
}

/// Whether the copy of a rule takes these.
fn copy_takes(alloc: Global, rule: &ScalarRule, expected: [bool; 3]) -> Made<bool> {
    let copy = rule.try_clone(alloc)?;
    Ok(taken(alloc, &copy)? == expected)
}

/// Whether the copy of the rule of the table's scalar takes its text alone.
fn scalar_takes(alloc: Global, types: &Types) -> Made<bool> {
    match types.get("D") {
        Some(SchemaType::Scalar(scalar)) => {
            copy_takes(alloc, scalar.taking(), [true, false, false])
        }
        _ => Ok(false),
    }
}

#[test]
fn rules_take_values(rt: HostRuntime) -> Result<(), Fail> {
    let alloc = rt.alloc();
    assert!(rt; copy_takes(alloc, &ScalarRule::Any, [true, true, true])?);
    assert!(rt; copy_takes(alloc, &ScalarRule::Bool, [false, false, true])?);
    assert!(rt; copy_takes(alloc, &ScalarRule::Int, [false, true, false])?);
    assert!(rt; copy_takes(alloc, &ScalarRule::Text, [true, false, false])?);
    assert!(rt; copy_takes(alloc, &ScalarRule::Id, [true, true, false])?);
    assert!(rt; copy_takes(alloc, &ScalarRule::IntBetween(1, 4), [false, false, false])?);
    let types = table(alloc)?;
    assert!(rt; scalar_takes(alloc, &types)?);
    Ok(())
}
