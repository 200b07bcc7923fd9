//! The types of a bench by their kinds.
ghost use Rattle.std.specs.Prelude.{◌≡◌, [], ◌∷◌, codes};
ghost use Rattle.serde_json.specs.View.{view};
ghost use Rattle.gql_form.specs.Faults.{IsRead};
ghost use Rattle.gql_form.specs.TypeForm.{type_of_kind, kind_in, object_of, interface_of};
ghost use Rattle.gql_form.specs.TypeForm.{union_of, enum_type_of, input_of, scalar_of};
ghost use Rattle.gql_form.specs.TypeForm.{subscription_of};

use crate::fault::Fault;
use crate::fields::{FieldForm, InputFieldForm, InterfaceFieldForm, SubscriptionFieldForm};
use crate::form::{Form, Reader};
use crate::kit::bad;
use crate::members::Members;
use gql_base::{Items, Name, Pairs, Text};
use gql_schema::ScalarRule;
use serde_json::Value as Json;

#[derive(Drop)]
pub struct ObjectForm {
    pub name: Name,
    pub interfaces: Items<Name>,
    /// The fields that an entity is known by.
    pub key: Option<Text>,
    pub fields: Pairs<FieldForm>,
}

#[derive(Drop)]
pub struct InterfaceForm {
    pub name: Name,
    pub fields: Pairs<InterfaceFieldForm>,
}

#[derive(Drop)]
pub struct UnionForm {
    pub name: Name,
    pub members: Items<Name>,
}

#[derive(Drop)]
pub struct EnumTypeForm {
    pub name: Name,
    pub items: Items<Name>,
}

#[derive(Drop)]
pub struct InputForm {
    pub name: Name,
    pub oneof: bool,
    pub fields: Pairs<InputFieldForm>,
}

#[derive(Drop)]
pub struct ScalarForm {
    pub name: Name,
    /// Without a rule every value is taken.
    pub rule: Option<ScalarRule>,
}

#[derive(Drop)]
pub struct SubscriptionForm {
    pub name: Name,
    pub fields: Pairs<SubscriptionFieldForm>,
}

/// A type of a bench.
#[derive(Drop)]
pub enum TypeForm {
    Object(ObjectForm),
    Interface(InterfaceForm),
    Union(UnionForm),
    Enum(EnumTypeForm),
    Input(InputForm),
    Scalar(ScalarForm),
    Subscription(SubscriptionForm),
}

/// What a type is.
#[derive(Clone, Copy, PartialEq, Eq)]
pub(crate) enum TypeKind {
    Object,
    Interface,
    Union,
    Enum,
    Input,
    Scalar,
    Subscription,
}

impl Form for TypeKind {
    ghost use Rattle.gql_form.specs.TypeForm.{kind_of};

    ghost reading = { λ cells. kind_of };

    fn read(reader: Reader, json: &Json) -> Result<TypeKind, Fault> {
        match json.as_str() {
            Some(word) => read_kind(reader, word),
            None => bad(reader),
        }
    }
}

fn read_kind(reader: Reader, word: &str) -> Result<TypeKind, Fault>
    ensures { IsRead result (kind_in word.now) }
{
    match word {
        "object" => Ok(TypeKind::Object),
        "interface" => Ok(TypeKind::Interface),
        "union" => Ok(TypeKind::Union),
        "enum" => Ok(TypeKind::Enum),
        "input" => Ok(TypeKind::Input),
        "scalar" => Ok(TypeKind::Scalar),
        "subscription" => Ok(TypeKind::Subscription),
        _ => bad(reader),
    }
}

impl Form for TypeForm {
    ghost use Rattle.gql_form.specs.TypeForm.{type_of};

    ghost reading = { type_of };

    fn read(reader: Reader, json: &Json) -> Result<TypeForm, Fault> {
        let mut members = Members::of(reader, json);
        let kind = members.needed("kind")?;
        read_of_kind(kind, members)
    }
}

/// A type of this kind.
fn read_of_kind(kind: TypeKind, members: Members) -> Result<TypeForm, Fault>
    requires { members.asked ≡ codes "kind" ∷ [] }
    ensures { IsRead result
        (type_of_kind members.entry.reader.cells kind (view members.entry.json.now)) }
{
    match kind {
        TypeKind::Object => Ok(TypeForm::Object(read_object(members)?)),
        TypeKind::Interface => Ok(TypeForm::Interface(read_interface(members)?)),
        TypeKind::Union => Ok(TypeForm::Union(read_union(members)?)),
        TypeKind::Enum => Ok(TypeForm::Enum(read_enum(members)?)),
        TypeKind::Input => Ok(TypeForm::Input(read_input(members)?)),
        TypeKind::Scalar => Ok(TypeForm::Scalar(read_scalar(members)?)),
        TypeKind::Subscription => Ok(TypeForm::Subscription(read_subscription(members)?)),
    }
}

fn read_object(mut members: Members) -> Result<ObjectForm, Fault>
    requires { members.asked ≡ codes "kind" ∷ [] }
    ensures { IsRead result (object_of members.entry.reader.cells (view members.entry.json.now)) }
{
    let name = members.needed("name")?;
    let interfaces = members.listed("implements")?;
    let key = members.optional("key")?;
    let fields = members.needed("fields")?;
    members.no_others(ObjectForm {
        name,
        interfaces,
        key,
        fields,
    })
}

fn read_interface(mut members: Members) -> Result<InterfaceForm, Fault>
    requires { members.asked ≡ codes "kind" ∷ [] }
    ensures { IsRead result (interface_of (view members.entry.json.now)) }
{
    let name = members.needed("name")?;
    let fields = members.needed("fields")?;
    members.no_others(InterfaceForm { name, fields })
}

fn read_union(mut members: Members) -> Result<UnionForm, Fault>
    requires { members.asked ≡ codes "kind" ∷ [] }
    ensures { IsRead result (union_of (view members.entry.json.now)) }
{
    let name = members.needed("name")?;
    let parts = members.needed("members")?;
    members.no_others(UnionForm {
        name,
        members: parts,
    })
}

fn read_enum(mut members: Members) -> Result<EnumTypeForm, Fault>
    requires { members.asked ≡ codes "kind" ∷ [] }
    ensures { IsRead result (enum_type_of (view members.entry.json.now)) }
{
    let name = members.needed("name")?;
    let items = members.needed("items")?;
    members.no_others(EnumTypeForm { name, items })
}

fn read_input(mut members: Members) -> Result<InputForm, Fault>
    requires { members.asked ≡ codes "kind" ∷ [] }
    ensures { IsRead result (input_of (view members.entry.json.now)) }
{
    let name = members.needed("name")?;
    let oneof: Option<bool> = members.optional("oneof")?;
    let fields = members.needed("fields")?;
    members.no_others(InputForm {
        name,
        oneof: oneof.unwrap_or(false),
        fields,
    })
}

fn read_scalar(mut members: Members) -> Result<ScalarForm, Fault>
    requires { members.asked ≡ codes "kind" ∷ [] }
    ensures { IsRead result (scalar_of (view members.entry.json.now)) }
{
    let name = members.needed("name")?;
    let rule = members.optional("rule")?;
    members.no_others(ScalarForm { name, rule })
}

fn read_subscription(mut members: Members) -> Result<SubscriptionForm, Fault>
    requires { members.asked ≡ codes "kind" ∷ [] }
    ensures { IsRead result (subscription_of (view members.entry.json.now)) }
{
    let name = members.needed("name")?;
    let fields = members.needed("fields")?;
    members.no_others(SubscriptionForm { name, fields })
}
