//! The fields of types, with their arguments.
use crate::answer_form::AnswerForm;
use crate::event_form::EventForm;
use crate::fault::Fault;
use crate::form::{Form, Named, Reader};
use crate::members::Members;
use crate::plain::value_in;
use gql_base::{EnumForm, Items, Name, TypeRef, Value};
use serde_json::Value as Json;

/// An argument of a field.
#[derive(Drop)]
pub struct ArgumentForm {
    pub name: Name,
    pub ty: TypeRef,
    pub default: Option<Value>,
}

/// A field of an object, after its name.
#[derive(Drop)]
pub struct FieldForm {
    pub ty: TypeRef,
    pub args: Items<ArgumentForm>,
    pub answer: AnswerForm,
}

/// A field of an interface, after its name.
#[derive(Drop)]
pub struct InterfaceFieldForm {
    pub ty: TypeRef,
    pub args: Items<ArgumentForm>,
}

/// A field of an input object, after its name.
#[derive(Drop)]
pub struct InputFieldForm {
    pub ty: TypeRef,
    pub default: Option<Value>,
}

/// A field of the subscription, after its name.
#[derive(Drop)]
pub struct SubscriptionFieldForm {
    pub ty: TypeRef,
    pub args: Items<ArgumentForm>,
    pub events: Items<EventForm>,
}

/// A default: a value in which `{"$enum":"A"}` is an enum.
impl Form for Value {
    ghost use Rattle.gql_form.specs.Fields.{default_of};

    ghost reading = { λ cells. default_of };

    fn read(reader: Reader, json: &Json) -> Result<Value, Fault> {
        value_in(reader, EnumForm::Marked, json)
    }
}

impl Form for ArgumentForm {
    ghost use Rattle.gql_form.specs.Fields.{argument_of};

    ghost reading = { λ cells. argument_of };

    fn read(reader: Reader, json: &Json) -> Result<ArgumentForm, Fault> {
        let mut members = Members::of(reader, json);
        let name = members.needed("name")?;
        let ty = members.needed("type")?;
        let default = members.optional("default")?;
        members.no_others(ArgumentForm { name, ty, default })
    }
}

impl Named for FieldForm {
    ghost use Rattle.gql_form.specs.Fields.{field_of};

    ghost behind = { field_of };

    fn read_behind(mut members: Members) -> Result<FieldForm, Fault> {
        let ty = members.needed("type")?;
        let args = members.listed("args")?;
        let answer = members.needed("answer")?;
        members.no_others(FieldForm { ty, args, answer })
    }
}

impl Named for InterfaceFieldForm {
    ghost use Rattle.gql_form.specs.Fields.{interface_field_of};

    ghost behind = { λ cells. interface_field_of };

    fn read_behind(mut members: Members) -> Result<InterfaceFieldForm, Fault> {
        let ty = members.needed("type")?;
        let args = members.listed("args")?;
        members.no_others(InterfaceFieldForm { ty, args })
    }
}

impl Named for InputFieldForm {
    ghost use Rattle.gql_form.specs.Fields.{input_field_of};

    ghost behind = { λ cells. input_field_of };

    fn read_behind(mut members: Members) -> Result<InputFieldForm, Fault> {
        let ty = members.needed("type")?;
        let default = members.optional("default")?;
        members.no_others(InputFieldForm { ty, default })
    }
}

impl Named for SubscriptionFieldForm {
    ghost use Rattle.gql_form.specs.Fields.{subscription_field_of};

    ghost behind = { λ cells. subscription_field_of };

    fn read_behind(mut members: Members) -> Result<SubscriptionFieldForm, Fault> {
        let ty = members.needed("type")?;
        let args = members.listed("args")?;
        let events = members.needed("events")?;
        members.no_others(SubscriptionFieldForm { ty, args, events })
    }
}
