//! The fields and arguments of types.
ghost use Rattle.std.specs.Prelude.{◌≡◌, [], IfOk};
ghost use Rattle.gql_schema.specs.Field.{arguments_of};
ghost use Rattle.gql_schema.specs.InterfaceField.{promised_arguments};
ghost use Rattle.gql_schema.specs.SubscriptionField.{event_arguments};
ghost use Rattle.gql_bench.specs.FieldTable.{argument_in, arguments_behind, event_field_in};
ghost use Rattle.gql_bench.specs.FieldTable.{field_in, input_in, promised_in};

use gql_base::{Copied, Made, TypeRef, Value};
use gql_form::{
    ArgumentForm, FieldForm, InputFieldForm, InterfaceFieldForm, SubscriptionFieldForm,
};
use gql_schema::{Field, InputValue, InterfaceField, SubscriptionField};
use std::alloc::Global;

/// The field of an object of this name, whose resolver has this number.
pub(crate) fn field_of(alloc: Global, number: u32, name: &str, form: &FieldForm) -> Made<Field>
    ensures { IfOk result (λ field. field ≡ field_in number name.now form.now) }
{
    let field = Field::new(alloc, name, form.ty.try_clone(alloc)?, number)?;
    with_arguments(alloc, field, form.args.as_slice())
}

/// This field with these arguments.
fn with_arguments(alloc: Global, mut field: Field, forms: &[ArgumentForm]) -> Made<Field>
    ensures { IfOk result (λ made. made
        ≡ record field { arguments = arguments_behind (arguments_of field) forms.now }) }
{
    for form in forms {
        field = field.argument(alloc, argument_of(alloc, form)?)?;
    }
    Ok(field)
}

/// The field of this name that an interface promises.
pub(crate) fn promised_of(
    alloc: Global,
    name: &str,
    form: &InterfaceFieldForm,
) -> Made<InterfaceField>
    ensures { IfOk result (λ field. field ≡ promised_in 0 name.now form.now) }
{
    let field = InterfaceField::new(alloc, name, form.ty.try_clone(alloc)?)?;
    promised_with_arguments(alloc, field, form.args.as_slice())
}

fn promised_with_arguments(
    alloc: Global,
    mut field: InterfaceField,
    forms: &[ArgumentForm],
) -> Made<InterfaceField>
    ensures { IfOk result (λ made. made
        ≡ record field { arguments = arguments_behind (promised_arguments field) forms.now }) }
{
    for form in forms {
        field = field.argument(alloc, argument_of(alloc, form)?)?;
    }
    Ok(field)
}

/// The field of a subscription of this name, whose source has this number.
pub(crate) fn event_field_of(
    alloc: Global,
    number: u32,
    name: &str,
    form: &SubscriptionFieldForm,
) -> Made<SubscriptionField>
    ensures { IfOk result (λ field. field ≡ event_field_in number name.now form.now) }
{
    let field = SubscriptionField::new(alloc, name, form.ty.try_clone(alloc)?, number)?;
    events_with_arguments(alloc, field, form.args.as_slice())
}

fn events_with_arguments(
    alloc: Global,
    mut field: SubscriptionField,
    forms: &[ArgumentForm],
) -> Made<SubscriptionField>
    ensures { IfOk result (λ made. made
        ≡ record field { arguments = arguments_behind (event_arguments field) forms.now }) }
{
    for form in forms {
        field = field.argument(alloc, argument_of(alloc, form)?)?;
    }
    Ok(field)
}

/// The field of an input object of this name.
pub(crate) fn input_of(alloc: Global, name: &str, form: &InputFieldForm) -> Made<InputValue>
    ensures { IfOk result (λ input. input ≡ input_in 0 name.now form.now) }
{
    input_value(alloc, name, &form.ty, &form.default)
}

fn argument_of(alloc: Global, form: &ArgumentForm) -> Made<InputValue>
    ensures { IfOk result (λ argument. argument ≡ argument_in form.now) }
{
    input_value(alloc, form.name.as_str(), &form.ty, &form.default)
}

/// An input value of this name and type, with this default, where it has one.
fn input_value(alloc: Global, name: &str, ty: &TypeRef, default: &Option<Value>) -> Made<InputValue>
    ensures { IfOk result (λ input. input
        ≡ record { name = name.now; ty = ty.now; default = default.now }) }
{
    let input = InputValue::new(alloc, name, ty.try_clone(alloc)?)?;
    match default {
        Some(value) => Ok(input.default_value(value.try_clone(alloc)?)),
        None => Ok(input),
    }
}
