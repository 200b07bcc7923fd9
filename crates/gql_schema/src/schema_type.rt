ghost use Rattle.std.specs.Prelude.{◌≡◌, option_map};

use crate::declared_field::{DeclaredField, Declares};
use crate::enum_::Enum;
use crate::input_object::InputObject;
use crate::interface::Interface;
use crate::named::Named;
use crate::object::Object;
use crate::same::Same;
use crate::scalar::Scalar;
use crate::subscription::Subscription;
use crate::union::Union;
use gql_base::{Copied, Made};
use std::alloc::Global;

/// A type of a schema (GraphQL, October 2021, section 3.4), of one of seven kinds.
#[derive(Debug, Drop)]
pub enum SchemaType {
    Scalar(Scalar),
    Object(Object),
    InputObject(InputObject),
    Enum(Enum),
    Interface(Interface),
    Union(Union),
    Subscription(Subscription),
}

impl SchemaType {
    ghost use Rattle.gql_schema.specs.DeclaredField.{declared_behind};
    ghost use Rattle.gql_schema.specs.TableReading.{declared_in};
    ghost use Rattle.gql_schema.specs.Types.{type_name};

    /// The type's name.
    pub fn name(&self) -> &str
        ensures { result.now ≡ type_name self.now }
    {
        match self {
            SchemaType::Scalar(scalar) => scalar.type_name(),
            SchemaType::Object(object) => object.type_name(),
            SchemaType::InputObject(input) => input.type_name(),
            SchemaType::Enum(enum_type) => enum_type.type_name(),
            SchemaType::Interface(interface) => interface.type_name(),
            SchemaType::Union(union_type) => union_type.type_name(),
            SchemaType::Subscription(subscription) => subscription.type_name(),
        }
    }

    /// The field of this name of an object, an interface or a subscription, or none where there is
    /// no such field.
    pub fn declared(&self, name: &str) -> Option<DeclaredField<'_>>
        ensures { option_map declared_behind result ≡ declared_in name.now self.now }
    {
        match self {
            SchemaType::Object(object) => Some(object.get(name)?.declared()),
            SchemaType::Interface(interface) => Some(interface.get(name)?.declared()),
            SchemaType::Subscription(subscription) => Some(subscription.get(name)?.declared()),
            SchemaType::Scalar(_)
            | SchemaType::InputObject(_)
            | SchemaType::Enum(_)
            | SchemaType::Union(_) => None,
        }
    }
}

impl Named for SchemaType {
    ghost use Rattle.gql_schema.specs.Types.{type_name};

    ghost name_of = { type_name };

    fn own_name(&self) -> &str {
        self.name()
    }
}

impl Copied for SchemaType {
    fn try_clone(&self, alloc: Global) -> Made<SchemaType> {
        match self {
            SchemaType::Scalar(scalar) => Ok(SchemaType::Scalar(scalar.try_clone(alloc)?)),
            SchemaType::Object(object) => Ok(SchemaType::Object(object.try_clone(alloc)?)),
            SchemaType::InputObject(input) => Ok(SchemaType::InputObject(input.try_clone(alloc)?)),
            SchemaType::Enum(enum_type) => Ok(SchemaType::Enum(enum_type.try_clone(alloc)?)),
            SchemaType::Interface(interface) => Ok(SchemaType::Interface(interface.try_clone(
                alloc,
            )?)),
            SchemaType::Union(union_type) => Ok(SchemaType::Union(union_type.try_clone(alloc)?)),
            SchemaType::Subscription(subscription) => Ok(SchemaType::Subscription(
                subscription.try_clone(alloc)?,
            )),
        }
    }
}

impl Same for SchemaType {
    fn same(&self, other: &SchemaType) -> bool {
        match (self, other) {
            (SchemaType::Scalar(one), SchemaType::Scalar(two)) => one.same(two),
            (SchemaType::Object(one), SchemaType::Object(two)) => one.same(two),
            (SchemaType::InputObject(one), SchemaType::InputObject(two)) => one.same(two),
            (SchemaType::Enum(one), SchemaType::Enum(two)) => one.same(two),
            (SchemaType::Interface(one), SchemaType::Interface(two)) => one.same(two),
            (SchemaType::Union(one), SchemaType::Union(two)) => one.same(two),
            (SchemaType::Subscription(one), SchemaType::Subscription(two)) => one.same(two),
            _ => false,
        }
    }
}
