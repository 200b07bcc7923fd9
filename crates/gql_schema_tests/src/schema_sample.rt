//! A type of each kind, and a table of them.
use gql_base::{Items, Made, Number, Text, TypeRef, Value};
use gql_schema::{
    Enum, Field, InputObject, InputValue, Interface, InterfaceField, NameSet, Object, Scalar,
    ScalarRule, SchemaType, Subscription, SubscriptionField, Types, Union,
};
use std::alloc::Global;

fn int_type(alloc: Global) -> Made<TypeRef> {
    TypeRef::named(alloc, "Int")
}

/// The argument `a: Int = 3`.
fn argument(alloc: Global) -> Made<InputValue> {
    let argument = InputValue::new(alloc, "a", int_type(alloc)?)?;
    Ok(argument.default_value(Value::Number(Number::from_i64(3))))
}

/// The field `f: Int` of the resolver 7, with an argument.
fn field(alloc: Global, argument: InputValue) -> Made<Field> {
    Field::new(alloc, "f", int_type(alloc)?, 7)?.argument(alloc, argument)
}

/// The object `O` with a field.
fn object_with(alloc: Global, field: Field) -> Made<Object> {
    Object::new(alloc, "O")?.field(alloc, field)
}

/// The object `O` with the field `f`, which implements `I` and has a key.
fn object(alloc: Global) -> Made<Object> {
    let field = field(alloc, argument(alloc)?)?;
    object_with(alloc, field)?
        .implement(alloc, "I")?
        .key(alloc, "f")
}

/// The field `f: Int` of an interface, with an argument.
fn interface_field(alloc: Global, argument: InputValue) -> Made<InterfaceField> {
    InterfaceField::new(alloc, "f", int_type(alloc)?)?.argument(alloc, argument)
}

/// The interface `I` with the field `f`.
fn interface(alloc: Global) -> Made<Interface> {
    let field = interface_field(alloc, argument(alloc)?)?;
    Interface::new(alloc, "I")?.field(alloc, field)
}

/// The field `f: Int` of the source 9, with an argument.
fn subscription_field(alloc: Global, argument: InputValue) -> Made<SubscriptionField> {
    SubscriptionField::new(alloc, "f", int_type(alloc)?, 9)?.argument(alloc, argument)
}

/// The subscription `S` with the field `f`.
fn subscription(alloc: Global) -> Made<Subscription> {
    let field = subscription_field(alloc, argument(alloc)?)?;
    Subscription::new(alloc, "S")?.field(alloc, field)
}

/// The oneof input object `In` with the field `a`.
fn input_object(alloc: Global) -> Made<InputObject> {
    let field = InputValue::new(alloc, "a", int_type(alloc)?)?;
    let input = InputObject::new(alloc, "In")?.field(alloc, field)?;
    Ok(input.oneof())
}

/// The enum `E` of the items `A` and `B`.
fn enum_type(alloc: Global) -> Made<Enum> {
    Enum::new(alloc, "E")?.item(alloc, "A")?.item(alloc, "B")
}

/// The union `U` of the member `O`.
fn union_type(alloc: Global) -> Made<Union> {
    Union::new(alloc, "U")?.possible_type(alloc, "O")
}

/// The scalar `D`, which takes the text `x` alone.
fn scalar(alloc: Global) -> Made<Scalar> {
    let mut texts = Items::new(alloc);
    texts.push(Text::new(alloc, "x")?)?;
    let texts = NameSet::of_texts(alloc, texts)?;
    Ok(Scalar::new(alloc, "D")?.rule(ScalarRule::OneOf(texts)))
}

/// The kinds of types.
#[derive(Clone, Copy)]
enum Kind {
    Object,
    Interface,
    Subscription,
    InputObject,
    Enum,
    Union,
    Scalar,
}

fn type_of(alloc: Global, kind: Kind) -> Made<SchemaType> {
    match kind {
        Kind::Object => Ok(SchemaType::Object(object(alloc)?)),
        Kind::Interface => Ok(SchemaType::Interface(interface(alloc)?)),
        Kind::Subscription => Ok(SchemaType::Subscription(subscription(alloc)?)),
        Kind::InputObject => Ok(SchemaType::InputObject(input_object(alloc)?)),
        Kind::Enum => Ok(SchemaType::Enum(enum_type(alloc)?)),
        Kind::Union => Ok(SchemaType::Union(union_type(alloc)?)),
        Kind::Scalar => Ok(SchemaType::Scalar(scalar(alloc)?)),
    }
}

/// A table with a type of each kind.
pub(crate) fn table(alloc: Global) -> Made<Types> {
    let mut types = Types::new(alloc);
    for kind in &[
        Kind::Object,
        Kind::Interface,
        Kind::Subscription,
        Kind::InputObject,
        Kind::Enum,
        Kind::Union,
        Kind::Scalar,
    ] {
        types.register(alloc, type_of(alloc, *kind)?)?;
    }
    Ok(types)
}
