//! The public types can be moved to threads and shared between them, where what they are made of
//! can.
use crate::{
    ByName, Enum, Field, InputObject, InputValue, Interface, InterfaceField, NameSet, Object,
    Scalar, ScalarRule, SchemaError, SchemaRule, SchemaType, Subscription, SubscriptionField,
    Types, Union,
};

fn shared<T: Send + Sync>() {}

fn public_types() {
    shared::<ByName<Field>>();
    shared::<Enum>();
    shared::<Field>();
    shared::<InputValue>();
    shared::<NameSet>();
    shared::<Scalar>();
    shared::<ScalarRule>();
    shared::<SchemaError>();
    shared::<SchemaRule>();
    shared::<Union>();
}

fn of_interface_field() {
    shared::<InterfaceField>();
}

fn of_subscription_field() {
    shared::<SubscriptionField>();
}

fn of_input_object() {
    shared::<InputObject>();
}

fn of_interface() {
    shared::<Interface>();
}

fn of_subscription() {
    shared::<Subscription>();
}

fn of_object() {
    shared::<Object>();
}

fn of_schema_type() {
    shared::<SchemaType>();
}

fn of_types() {
    shared::<Types>();
}
