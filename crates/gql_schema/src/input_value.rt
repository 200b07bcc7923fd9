ghost use Rattle.std.specs.Prelude.{◌≡◌, IfOk, None};
ghost use Rattle.std.specs.Option.{option_copied};

use crate::named::Named;
use crate::same::Same;
use gql_base::{Copied, Made, Name, TypeRef, Value};
use std::alloc::Global;

/// An argument, or a field of an input object (GraphQL, October 2021, sections 3.6.1 and 3.10): its
/// name, its type and its default value, where it has one.
#[derive(Debug, Drop)]
pub struct InputValue {
    name: Name,
    ty: TypeRef,
    default: Option<Value>,
}

impl InputValue {
    ghost use Rattle.gql_schema.specs.InputValue.{input_name, input_type, default_of, with_default};

    /// An input value without default.
    pub fn new(alloc: Global, name: &str, ty: TypeRef) -> Made<InputValue>
        ensures name { IfOk result (λ input. input_name input ≡ name.now) }
        ensures ty { IfOk result (λ input. input_type input ≡ ty) }
        ensures default { IfOk result (λ input. default_of input ≡ None) }
    {
        Ok(InputValue::with_name(Name::new(alloc, name)?, ty))
    }

    /// An input value without default, which takes the name.
    pub fn with_name(name: Name, ty: TypeRef) -> InputValue
        ensures name { input_name result ≡ name }
        ensures ty { input_type result ≡ ty }
        ensures default { default_of result ≡ None }
    {
        InputValue {
            name,
            ty,
            default: None,
        }
    }

    /// This input value with a default, in place of another.
    pub fn default_value(self, value: Value) -> InputValue
        ensures { result ≡ with_default self value }
    {
        let InputValue { name, ty, .. } = self;
        InputValue {
            name,
            ty,
            default: Some(value),
        }
    }

    /// The name.
    pub fn name(&self) -> &str
        ensures { result.now ≡ input_name self.now }
    {
        self.name.as_str()
    }

    /// The type.
    pub fn ty(&self) -> &TypeRef
        ensures { result.now ≡ input_type self.now }
    {
        &self.ty
    }

    /// The default value, or none.
    pub fn default(&self) -> Option<&Value>
        ensures { option_copied result ≡ default_of self.now }
    {
        self.default.as_ref()
    }
}

impl Named for InputValue {
    ghost use Rattle.gql_schema.specs.InputValue.{input_name};

    ghost name_of = { input_name };

    fn own_name(&self) -> &str {
        self.name()
    }
}

impl Copied for InputValue {
    fn try_clone(&self, alloc: Global) -> Made<InputValue> {
        Ok(InputValue {
            name: self.name.try_clone(alloc)?,
            ty: self.ty.try_clone(alloc)?,
            default: self.default.try_clone(alloc)?,
        })
    }
}

impl Same for InputValue {
    fn same(&self, other: &InputValue) -> bool {
        self.name == other.name && self.ty == other.ty && self.default.same(&other.default)
    }
}
