ghost use Rattle.std.specs.Prelude.{◌≡◌, [], IfOk};

use crate::by_name::ByName;
use crate::input_value::InputValue;
use crate::named::Named;
use crate::same::Same;
use gql_base::{Copied, Made, Name, TypeRef};
use std::alloc::Global;

/// A field of a subscription: its name, its type, the number of the source of its events, and its
/// arguments.
#[derive(Debug, Drop)]
pub struct SubscriptionField {
    name: Name,
    ty: TypeRef,
    source: u32,
    arguments: ByName<InputValue>,
}

impl SubscriptionField {
    ghost use Rattle.gql_schema.specs.SubscriptionField.{event_name, event_type, source_of};
    ghost use Rattle.gql_schema.specs.SubscriptionField.{event_arguments, with_argument};

    /// A field without arguments.
    pub fn new(alloc: Global, name: &str, ty: TypeRef, source: u32) -> Made<SubscriptionField>
        ensures name { IfOk result (λ field. event_name field ≡ name.now) }
        ensures ty { IfOk result (λ field. event_type field ≡ ty) }
        ensures source { IfOk result (λ field. source_of field ≡ source) }
        ensures arguments { IfOk result (λ field. event_arguments field ≡ []) }
    {
        Ok(SubscriptionField::with_name(alloc, Name::new(alloc, name)?, ty, source))
    }

    /// A field without arguments, which takes the name.
    pub fn with_name(alloc: Global, name: Name, ty: TypeRef, source: u32) -> SubscriptionField
        ensures name { event_name result ≡ name }
        ensures ty { event_type result ≡ ty }
        ensures source { source_of result ≡ source }
        ensures arguments { event_arguments result ≡ [] }
    {
        SubscriptionField {
            name,
            ty,
            source,
            arguments: ByName::new(alloc),
        }
    }

    /// This field with an argument, in place of one of the same name or after the others.
    pub fn argument(self, alloc: Global, argument: InputValue) -> Made<SubscriptionField>
        ensures { IfOk result (λ field. field ≡ with_argument self argument) }
    {
        let mut field = self;
        field.arguments.put(alloc, argument)?;
        Ok(field)
    }

    /// The field's name.
    pub fn name(&self) -> &str
        ensures { result.now ≡ event_name self.now }
    {
        self.name.as_str()
    }

    /// The field's type.
    pub fn ty(&self) -> &TypeRef
        ensures { result.now ≡ event_type self.now }
    {
        &self.ty
    }

    /// The number of the source of the field's events.
    pub fn source(&self) -> u32
        ensures { result ≡ source_of self.now }
    {
        self.source
    }

    /// The field's arguments, in the order in which they were added.
    pub fn arguments(&self) -> &ByName<InputValue>
        ensures { result.now ≡ event_arguments self.now }
    {
        &self.arguments
    }
}

impl Named for SubscriptionField {
    ghost use Rattle.gql_schema.specs.SubscriptionField.{event_name};

    ghost name_of = { event_name };

    fn own_name(&self) -> &str {
        self.name()
    }
}

impl Copied for SubscriptionField {
    fn try_clone(&self, alloc: Global) -> Made<SubscriptionField> {
        Ok(SubscriptionField {
            name: self.name.try_clone(alloc)?,
            ty: self.ty.try_clone(alloc)?,
            source: self.source,
            arguments: self.arguments.try_clone(alloc)?,
        })
    }
}

impl Same for SubscriptionField {
    fn same(&self, other: &SubscriptionField) -> bool {
        self.name == other.name
            && self.ty == other.ty
            && self.source == other.source
            && self.arguments.same(&other.arguments)
    }
}
