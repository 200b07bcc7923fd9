//! The types of fields where a document is checked.
ghost use Rattle.std.specs.Prelude.{◌≡◌, IfOk, option_map};
ghost use Rattle.gql_base.specs.TypeRef.{innermost, type_text};
ghost use Rattle.gql_fields.specs.FieldTypes.{field_type, has_entities, has_typename, is_composite};
ghost use Rattle.gql_fields.specs.FieldTypes.{is_leaf, is_subscription};
ghost use Rattle.gql_fields.specs.FieldTypes.{known_field};
ghost use Rattle.gql_fields.specs.FieldTypeViews.{known_behind, type_behind};
ghost use Rattle.gql_fields.specs.Terms.{terms_of};
ghost use Rattle.gql_fields.specs.declared.built_in_arguments.BuiltIn.{BuiltIn as BuiltInArguments};

use crate::built_in_arguments::BuiltIn;
use crate::site::Site;
use gql_base::{Made, Text};
use gql_schema::{ByName, DeclaredField, InputValue, SchemaType};
use std::alloc::Global;

/// A field that is known.
#[derive(Clone, Copy)]
pub enum FieldType<'a> {
    Typename,
    Entities,
    Declared(DeclaredField<'a>),
}

impl<'a> FieldType<'a> {
    /// The arguments that the field declares.
    pub fn arguments(&self, built: &'a BuiltIn) -> &'a ByName<InputValue>
        ensures { result.now ≡ (known_behind built.now self.now).arguments }
    {
        match self {
            FieldType::Typename => &built.typename,
            FieldType::Entities => &built.entities,
            FieldType::Declared(field) => field.arguments,
        }
    }

    /// The name of the type of what stands in the field.
    pub fn inner_name(&self) -> &str
        ensures { result.now ≡ innermost (type_behind self.now) }
    {
        match self {
            FieldType::Typename => "String",
            FieldType::Entities => "_Entity",
            FieldType::Declared(field) => field.ty.type_name(),
        }
    }

    /// The type as it is written.
    pub fn text(&self, alloc: Global) -> Made<Text>
        ensures { IfOk result (λ text. text ≡ type_text (type_behind self.now)) }
    {
        match self {
            FieldType::Typename => Text::new(alloc, "String!"),
            FieldType::Entities => Text::new(alloc, "[_Entity]!"),
            FieldType::Declared(field) => field.ty.text(alloc),
        }
    }
}

impl<'a> Site<'a> {
    /// The field of this name, where the type has it.
    pub fn field_type(&self, ty: &'a SchemaType, name: &str) -> Option<FieldType<'a>>
        ensures ty { option_map type_behind result
            ≡ field_type (terms_of self.now) ty.now name.now }
        ensures known { (built : BuiltInArguments) → option_map (known_behind built) result
            ≡ known_field built (terms_of self.now) ty.now name.now }
    {
        if has_typename(ty, name) {
            return Some(FieldType::Typename);
        }
        if self.has_entities(ty, name) {
            return Some(FieldType::Entities);
        }
        let declared = ty.declared(name)?;
        Some(FieldType::Declared(declared))
    }

    fn has_entities(&self, ty: &SchemaType, name: &str) -> bool
        ensures { result ≡ has_entities (terms_of self.now) ty.now name.now }
    {
        self.entities && name == "_entities" && ty.name() == self.query
    }
}

fn has_typename(ty: &SchemaType, name: &str) -> bool
    ensures { result ≡ has_typename ty.now name.now }
{
    name == "__typename" && !is_subscription_type(ty)
}

fn is_subscription_type(ty: &SchemaType) -> bool
    ensures { result ≡ is_subscription ty.now }
{
    matches!(ty, SchemaType::Subscription(_))
}

/// True exactly where fields of the type have sets.
pub fn is_composite_type(ty: &SchemaType) -> bool
    ensures { result ≡ is_composite ty.now }
{
    matches!(
        ty,
        SchemaType::Object(_) | SchemaType::Interface(_) | SchemaType::Union(_)
    )
}

/// True exactly where fields of the type have no sets.
pub fn is_leaf_type(ty: &SchemaType) -> bool
    ensures { result ≡ is_leaf ty.now }
{
    matches!(ty, SchemaType::Scalar(_) | SchemaType::Enum(_))
}
