ghost use Rattle.std.specs.Prelude.{◌≡◌, [], IfOk};

use crate::by_name::ByName;
use crate::input_value::InputValue;
use crate::named::Named;
use crate::same::Same;
use gql_base::{Copied, Made, Name, TypeRef};
use std::alloc::Global;

/// A field of an object (GraphQL, October 2021, section 3.6): its name, its type, the number of the
/// resolver that answers it, and its arguments.
#[derive(Debug, Drop)]
pub struct Field {
    name: Name,
    ty: TypeRef,
    resolver: u32,
    arguments: ByName<InputValue>,
}

impl Field {
    ghost use Rattle.gql_schema.specs.Field.{field_name, field_type, resolver_of, arguments_of};
    ghost use Rattle.gql_schema.specs.Field.{with_argument};

    /// A field without arguments.
    pub fn new(alloc: Global, name: &str, ty: TypeRef, resolver: u32) -> Made<Field>
        ensures name { IfOk result (λ field. field_name field ≡ name.now) }
        ensures ty { IfOk result (λ field. field_type field ≡ ty) }
        ensures resolver { IfOk result (λ field. resolver_of field ≡ resolver) }
        ensures arguments { IfOk result (λ field. arguments_of field ≡ []) }
    {
        Ok(Field::with_name(alloc, Name::new(alloc, name)?, ty, resolver))
    }

    /// A field without arguments, which takes the name.
    pub fn with_name(alloc: Global, name: Name, ty: TypeRef, resolver: u32) -> Field
        ensures name { field_name result ≡ name }
        ensures ty { field_type result ≡ ty }
        ensures resolver { resolver_of result ≡ resolver }
        ensures arguments { arguments_of result ≡ [] }
    {
        Field {
            name,
            ty,
            resolver,
            arguments: ByName::new(alloc),
        }
    }

    /// This field with an argument, in place of one of the same name or after the others.
    pub fn argument(self, alloc: Global, argument: InputValue) -> Made<Field>
        ensures { IfOk result (λ field. field ≡ with_argument self argument) }
    {
        let mut field = self;
        field.arguments.put(alloc, argument)?;
        Ok(field)
    }

    /// The field's name.
    pub fn name(&self) -> &str
        ensures { result.now ≡ field_name self.now }
    {
        self.name.as_str()
    }

    /// The field's type.
    pub fn ty(&self) -> &TypeRef
        ensures { result.now ≡ field_type self.now }
    {
        &self.ty
    }

    /// The number of the field's resolver.
    pub fn resolver(&self) -> u32
        ensures { result ≡ resolver_of self.now }
    {
        self.resolver
    }

    /// The field's arguments, in the order in which they were added.
    pub fn arguments(&self) -> &ByName<InputValue>
        ensures { result.now ≡ arguments_of self.now }
    {
        &self.arguments
    }
}

impl Named for Field {
    ghost use Rattle.gql_schema.specs.Field.{field_name};

    ghost name_of = { field_name };

    fn own_name(&self) -> &str {
        self.name()
    }
}

impl Copied for Field {
    fn try_clone(&self, alloc: Global) -> Made<Field> {
        Ok(Field {
            name: self.name.try_clone(alloc)?,
            ty: self.ty.try_clone(alloc)?,
            resolver: self.resolver,
            arguments: self.arguments.try_clone(alloc)?,
        })
    }
}

impl Same for Field {
    fn same(&self, other: &Field) -> bool {
        self.name == other.name
            && self.ty == other.ty
            && self.resolver == other.resolver
            && self.arguments.same(&other.arguments)
    }
}
