ghost use Rattle.std.specs.Prelude.{◌≡◌, [], IfOk};

use crate::by_name::ByName;
use crate::input_value::InputValue;
use crate::named::Named;
use crate::same::Same;
use gql_base::{Copied, Made, Name, TypeRef};
use std::alloc::Global;

/// A field that an interface promises (GraphQL, October 2021, section 3.7): its name, its type and
/// its arguments.
#[derive(Debug, Drop)]
pub struct InterfaceField {
    name: Name,
    ty: TypeRef,
    arguments: ByName<InputValue>,
}

impl InterfaceField {
    ghost use Rattle.gql_schema.specs.InterfaceField.{promised_name, promised_type};
    ghost use Rattle.gql_schema.specs.InterfaceField.{promised_arguments, with_argument};

    /// A field without arguments.
    pub fn new(alloc: Global, name: &str, ty: TypeRef) -> Made<InterfaceField>
        ensures name { IfOk result (λ field. promised_name field ≡ name.now) }
        ensures ty { IfOk result (λ field. promised_type field ≡ ty) }
        ensures arguments { IfOk result (λ field. promised_arguments field ≡ []) }
    {
        Ok(InterfaceField::with_name(alloc, Name::new(alloc, name)?, ty))
    }

    /// A field without arguments, which takes the name.
    pub fn with_name(alloc: Global, name: Name, ty: TypeRef) -> InterfaceField
        ensures name { promised_name result ≡ name }
        ensures ty { promised_type result ≡ ty }
        ensures arguments { promised_arguments result ≡ [] }
    {
        InterfaceField {
            name,
            ty,
            arguments: ByName::new(alloc),
        }
    }

    /// This field with an argument, in place of one of the same name or after the others.
    pub fn argument(self, alloc: Global, argument: InputValue) -> Made<InterfaceField>
        ensures { IfOk result (λ field. field ≡ with_argument self argument) }
    {
        let mut field = self;
        field.arguments.put(alloc, argument)?;
        Ok(field)
    }

    /// The field's name.
    pub fn name(&self) -> &str
        ensures { result.now ≡ promised_name self.now }
    {
        self.name.as_str()
    }

    /// The field's type.
    pub fn ty(&self) -> &TypeRef
        ensures { result.now ≡ promised_type self.now }
    {
        &self.ty
    }

    /// The field's arguments, in the order in which they were added.
    pub fn arguments(&self) -> &ByName<InputValue>
        ensures { result.now ≡ promised_arguments self.now }
    {
        &self.arguments
    }
}

impl Named for InterfaceField {
    ghost use Rattle.gql_schema.specs.InterfaceField.{promised_name};

    ghost name_of = { promised_name };

    fn own_name(&self) -> &str {
        self.name()
    }
}

impl Copied for InterfaceField {
    fn try_clone(&self, alloc: Global) -> Made<InterfaceField> {
        Ok(InterfaceField {
            name: self.name.try_clone(alloc)?,
            ty: self.ty.try_clone(alloc)?,
            arguments: self.arguments.try_clone(alloc)?,
        })
    }
}

impl Same for InterfaceField {
    fn same(&self, other: &InterfaceField) -> bool {
        self.name == other.name && self.ty == other.ty && self.arguments.same(&other.arguments)
    }
}
