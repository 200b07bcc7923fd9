//! The types of a bench by their kinds.
ghost use Rattle.std.specs.Prelude.{◌≡◌, [], IfOk};
ghost use Rattle.gql_schema.specs.Enum.{items_of};
ghost use Rattle.gql_schema.specs.InputObject.{input_fields};
ghost use Rattle.gql_schema.specs.Interface.{promised_fields};
ghost use Rattle.gql_schema.specs.NameSet.{with_names};
ghost use Rattle.gql_schema.specs.Object.{fields_of, interfaces_of};
ghost use Rattle.gql_schema.specs.Subscription.{event_fields};
ghost use Rattle.gql_schema.specs.Union.{members_of};
ghost use Rattle.gql_bench.specs.FieldTable.{event_field_in, field_in, fields_behind, input_in};
ghost use Rattle.gql_bench.specs.FieldTable.{promised_in};
ghost use Rattle.gql_bench.specs.TypeTable.{enum_in, input_object_in, interface_in, object_in};
ghost use Rattle.gql_bench.specs.TypeTable.{rule_in, scalar_in, subscription_in, type_in, union_in};

use crate::field_table::{event_field_of, field_of, input_of, promised_of};
use crate::numbers::{Numbers, number_behind};
use gql_base::{Copied, Made, Name, Pairs};
use gql_form::{
    EnumTypeForm, FieldForm, InputFieldForm, InputForm, InterfaceFieldForm, InterfaceForm,
    ObjectForm, ScalarForm, SubscriptionFieldForm, SubscriptionForm, TypeForm, UnionForm,
};
use gql_schema::{
    Enum, InputObject, Interface, Object, Scalar, ScalarRule, SchemaType, Subscription, Union,
};
use std::alloc::Global;

/// A type, with the next numbers.
pub(crate) fn type_of(alloc: Global, numbers: Numbers, form: &TypeForm) -> Made<SchemaType>
    ensures { IfOk result (λ ty. ty ≡ type_in numbers form.now) }
{
    match form {
        TypeForm::Object(form) => {
            Ok(SchemaType::Object(object_of(alloc, numbers.resolver, form)?))
        }
        TypeForm::Interface(form) => Ok(SchemaType::Interface(interface_of(alloc, form)?)),
        TypeForm::Union(form) => Ok(SchemaType::Union(union_of(alloc, form)?)),
        TypeForm::Enum(form) => Ok(SchemaType::Enum(enum_of(alloc, form)?)),
        TypeForm::Input(form) => Ok(SchemaType::InputObject(input_object_of(alloc, form)?)),
        TypeForm::Scalar(form) => Ok(SchemaType::Scalar(scalar_of(alloc, form)?)),
        TypeForm::Subscription(form) => Ok(SchemaType::Subscription(subscription_of(
            alloc,
            numbers.source,
            form,
        )?)),
    }
}

/// An object, whose resolvers are numbered from here on.
fn object_of(alloc: Global, number: u32, form: &ObjectForm) -> Made<Object>
    ensures { IfOk result (λ object. object ≡ object_in number form.now) }
{
    let bare = Object::new(alloc, form.name.as_str())?;
    let keyed = match &form.key {
        Some(key) => bare.key(alloc, key.as_str())?,
        None => bare,
    };
    let implementing = with_interfaces(alloc, keyed, form.interfaces.as_slice())?;
    with_fields(alloc, implementing, number, &form.fields)
}

/// This object, which implements these interfaces too.
fn with_interfaces(alloc: Global, mut object: Object, names: &[Name]) -> Made<Object>
    ensures { IfOk result (λ made. made
        ≡ record object { interfaces = with_names (interfaces_of object) names.now }) }
{
    for name in names {
        object = object.implement(alloc, name.as_str())?;
    }
    Ok(object)
}

/// This object, which has no field yet, with these fields.
fn with_fields(
    alloc: Global,
    mut object: Object,
    mut number: u32,
    forms: &Pairs<FieldForm>,
) -> Made<Object>
    requires { fields_of object ≡ [] }
    ensures { IfOk result (λ made. made
        ≡ record object { fields = fields_behind field_in [] number forms.now }) }
{
    for place in 0..forms.len() {
        let (name, form) = forms.at(place);
        let field = field_of(alloc, number, name, form)?;
        object = object.field(alloc, field)?;
        number = number_behind(number, 1)?;
    }
    Ok(object)
}

fn interface_of(alloc: Global, form: &InterfaceForm) -> Made<Interface>
    ensures { IfOk result (λ interface. interface ≡ interface_in form.now) }
{
    let interface = Interface::new(alloc, form.name.as_str())?;
    promising(alloc, interface, &form.fields)
}

/// This interface, which has no field yet, with these fields.
fn promising(
    alloc: Global,
    mut interface: Interface,
    forms: &Pairs<InterfaceFieldForm>,
) -> Made<Interface>
    requires { promised_fields interface ≡ [] }
    ensures { IfOk result (λ made. made
        ≡ record interface { fields = fields_behind promised_in [] 0 forms.now }) }
{
    for place in 0..forms.len() {
        let (name, form) = forms.at(place);
        let field = promised_of(alloc, name, form)?;
        interface = interface.field(alloc, field)?;
    }
    Ok(interface)
}

fn union_of(alloc: Global, form: &UnionForm) -> Made<Union>
    ensures { IfOk result (λ union_type. union_type ≡ union_in form.now) }
{
    let union_type = Union::new(alloc, form.name.as_str())?;
    with_members(alloc, union_type, form.members.as_slice())
}

fn with_members(alloc: Global, mut union_type: Union, names: &[Name]) -> Made<Union>
    ensures { IfOk result (λ made. made
        ≡ record union_type { members = with_names (members_of union_type) names.now }) }
{
    for name in names {
        union_type = union_type.possible_type(alloc, name.as_str())?;
    }
    Ok(union_type)
}

fn enum_of(alloc: Global, form: &EnumTypeForm) -> Made<Enum>
    ensures { IfOk result (λ enum_type. enum_type ≡ enum_in form.now) }
{
    let enum_type = Enum::new(alloc, form.name.as_str())?;
    with_items(alloc, enum_type, form.items.as_slice())
}

fn with_items(alloc: Global, mut enum_type: Enum, names: &[Name]) -> Made<Enum>
    ensures { IfOk result (λ made. made
        ≡ record enum_type { items = with_names (items_of enum_type) names.now }) }
{
    for name in names {
        enum_type = enum_type.item(alloc, name.as_str())?;
    }
    Ok(enum_type)
}

fn input_object_of(alloc: Global, form: &InputForm) -> Made<InputObject>
    ensures { IfOk result (λ input. input ≡ input_object_in form.now) }
{
    let bare = InputObject::new(alloc, form.name.as_str())?;
    let input = if form.oneof { bare.oneof() } else { bare };
    with_input_fields(alloc, input, &form.fields)
}

/// This input object, which has no field yet, with these fields.
fn with_input_fields(
    alloc: Global,
    mut input: InputObject,
    forms: &Pairs<InputFieldForm>,
) -> Made<InputObject>
    requires { input_fields input ≡ [] }
    ensures { IfOk result (λ made. made
        ≡ record input { fields = fields_behind input_in [] 0 forms.now }) }
{
    for place in 0..forms.len() {
        let (name, form) = forms.at(place);
        let field = input_of(alloc, name, form)?;
        input = input.field(alloc, field)?;
    }
    Ok(input)
}

fn scalar_of(alloc: Global, form: &ScalarForm) -> Made<Scalar>
    ensures { IfOk result (λ scalar. scalar ≡ scalar_in form.now) }
{
    let rule = rule_of(alloc, &form.rule)?;
    Ok(Scalar::new(alloc, form.name.as_str())?.rule(rule))
}

/// The rule of a scalar; without one every value is taken.
fn rule_of(alloc: Global, form: &Option<ScalarRule>) -> Made<ScalarRule>
    ensures { IfOk result (λ rule. rule ≡ rule_in form.now) }
{
    match form {
        Some(rule) => rule.try_clone(alloc),
        None => Ok(ScalarRule::Any),
    }
}

/// A subscription, whose sources are numbered from here on.
fn subscription_of(alloc: Global, number: u32, form: &SubscriptionForm) -> Made<Subscription>
    ensures { IfOk result (λ subscription. subscription ≡ subscription_in number form.now) }
{
    let subscription = Subscription::new(alloc, form.name.as_str())?;
    with_event_fields(alloc, subscription, number, &form.fields)
}

/// This subscription, which has no field yet, with these fields.
fn with_event_fields(
    alloc: Global,
    mut subscription: Subscription,
    mut number: u32,
    forms: &Pairs<SubscriptionFieldForm>,
) -> Made<Subscription>
    requires { event_fields subscription ≡ [] }
    ensures { IfOk result (λ made. made
        ≡ record subscription { fields = fields_behind event_field_in [] number forms.now }) }
{
    for place in 0..forms.len() {
        let (name, form) = forms.at(place);
        let field = event_field_of(alloc, number, name, form)?;
        subscription = subscription.field(alloc, field)?;
        number = number_behind(number, 1)?;
    }
    Ok(subscription)
}
