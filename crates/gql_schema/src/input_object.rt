ghost use Rattle.std.specs.Prelude.{◌≡◌, ◌↔◌, [], ◌<◌, None, IsTrue, IsSome, IfOk, length};
ghost use Rattle.std.specs.Prelude.{slice_get, Some, false, true};
ghost use Rattle.std.specs.Option.{option_copied};
ghost use Rattle.gql_base.specs.Pairs.{under, values_of, HasDistinctNames};
ghost use Rattle.gql_schema.specs.Keyed.{IsKeyed};

use crate::by_name::ByName;
use crate::input_value::InputValue;
use crate::named::Named;
use crate::same::Same;
use gql_base::{Copied, Made, Name};
use std::alloc::Global;

/// An input object (GraphQL, October 2021, section 3.10): its name, and its fields.
#[derive(Debug, Drop)]
pub struct InputObject {
    name: Name,
    fields: ByName<InputValue>,
    oneof: bool,
}

impl InputObject {
    ghost use Rattle.gql_schema.specs.InputValue.{input_name};
    ghost use Rattle.gql_schema.specs.InputObject.{input_object_name, input_fields, is_oneof};
    ghost use Rattle.gql_schema.specs.InputObject.{with_field, as_oneof};

    /// An input object without fields.
    pub fn new(alloc: Global, name: &str) -> Made<InputObject>
        ensures name { IfOk result (λ input. input_object_name input ≡ name.now) }
        ensures fields { IfOk result (λ input. input_fields input ≡ []) }
        ensures oneof { IfOk result (λ input. is_oneof input ≡ false) }
    {
        Ok(InputObject::with_name(alloc, Name::new(alloc, name)?))
    }

    /// An input object without fields, which takes the name.
    pub fn with_name(alloc: Global, name: Name) -> InputObject
        ensures name { input_object_name result ≡ name }
        ensures fields { input_fields result ≡ [] }
        ensures oneof { is_oneof result ≡ false }
    {
        InputObject {
            name,
            fields: ByName::new(alloc),
            oneof: false,
        }
    }

    /// Adds a field, whose name isn't there yet, after the others.
    pub fn field(self, alloc: Global, field: InputValue) -> Made<InputObject>
        requires { under (input_name field) (input_fields self) ≡ None }
        ensures { IfOk result (λ input. input ≡ with_field self field) }
    {
        let mut input = self;
        input.fields.add(alloc, field)?;
        Ok(input)
    }

    /// The same input object, of which a value has exactly one member.
    pub fn oneof(self) -> InputObject
        ensures { result ≡ as_oneof self }
    {
        let InputObject { name, fields, .. } = self;
        InputObject {
            name,
            fields,
            oneof: true,
        }
    }

    /// True exactly where a field has this name.
    pub fn has_field(&self, name: &str) -> bool
        ensures { IsTrue result ↔ IsSome (under name.now (input_fields self.now)) }
    {
        self.fields.get(name).is_some()
    }

    /// The name of the type.
    pub fn type_name(&self) -> &str
        ensures { result.now ≡ input_object_name self.now }
    {
        self.name.as_str()
    }

    /// The field of this name, or none where there is no such field.
    pub fn get(&self, name: &str) -> Option<&InputValue>
        ensures { option_copied result ≡ under name.now (input_fields self.now) }
    {
        self.fields.get(name)
    }

    /// The number of fields. Their keys are their own names, which differ.
    pub fn len(&self) -> usize
        ensures length { result ≡ length (input_fields self.now) }
        ensures keyed { IsKeyed input_name (input_fields self.now) }
        ensures distinct { HasDistinctNames (input_fields self.now) }
    {
        self.fields.len()
    }

    /// The field at a place, counted from 0.
    pub fn at(&self, index: usize) -> &InputValue
        requires { index < length (input_fields self.now) }
        ensures { slice_get (values_of (input_fields self.now)) index ≡ Some result.now }
    {
        let (_, field) = self.fields.at(index);
        field
    }

    /// The field at a place, counted from 0, under its name.
    pub fn entry(&self, place: usize) -> (&str, &InputValue)
        requires { place < length (input_fields self.now) }
        ensures { slice_get (input_fields self.now) place ≡ Some (result.0.now, result.1.now) }
    {
        self.fields.at(place)
    }

    /// True exactly where a value has exactly one member.
    pub fn is_oneof(&self) -> bool
        ensures { result ≡ is_oneof self.now }
    {
        self.oneof
    }
}

impl Named for InputObject {
    ghost use Rattle.gql_schema.specs.InputObject.{input_object_name};

    ghost name_of = { input_object_name };

    fn own_name(&self) -> &str {
        self.type_name()
    }
}

impl Copied for InputObject {
    fn try_clone(&self, alloc: Global) -> Made<InputObject> {
        Ok(InputObject {
            name: self.name.try_clone(alloc)?,
            fields: self.fields.try_clone(alloc)?,
            oneof: self.oneof,
        })
    }
}

impl Same for InputObject {
    fn same(&self, other: &InputObject) -> bool {
        self.name == other.name && self.fields.same(&other.fields) && self.oneof == other.oneof
    }
}
