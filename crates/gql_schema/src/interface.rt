ghost use Rattle.std.specs.Prelude.{◌≡◌, ◌↔◌, [], ◌<◌, None, IsTrue, IsSome, IfOk, length};
ghost use Rattle.std.specs.Prelude.{slice_get, Some};
ghost use Rattle.std.specs.Option.{option_copied};
ghost use Rattle.gql_base.specs.Pairs.{under, values_of, HasDistinctNames};
ghost use Rattle.gql_schema.specs.Keyed.{IsKeyed};

use crate::by_name::ByName;
use crate::interface_field::InterfaceField;
use crate::named::Named;
use crate::same::Same;
use gql_base::{Copied, Made, Name};
use std::alloc::Global;

/// An interface (GraphQL, October 2021, section 3.7): its name, and the fields that it promises.
#[derive(Debug, Drop)]
pub struct Interface {
    name: Name,
    fields: ByName<InterfaceField>,
}

impl Interface {
    ghost use Rattle.gql_schema.specs.InterfaceField.{promised_name};
    ghost use Rattle.gql_schema.specs.Interface.{interface_name, promised_fields, with_field};

    /// An interface without fields.
    pub fn new(alloc: Global, name: &str) -> Made<Interface>
        ensures name { IfOk result (λ interface. interface_name interface ≡ name.now) }
        ensures fields { IfOk result (λ interface. promised_fields interface ≡ []) }
    {
        Ok(Interface::with_name(alloc, Name::new(alloc, name)?))
    }

    /// An interface without fields, which takes the name.
    pub fn with_name(alloc: Global, name: Name) -> Interface
        ensures name { interface_name result ≡ name }
        ensures fields { promised_fields result ≡ [] }
    {
        Interface {
            name,
            fields: ByName::new(alloc),
        }
    }

    /// Adds a field, whose name isn't there yet, after the others.
    pub fn field(self, alloc: Global, field: InterfaceField) -> Made<Interface>
        requires { under (promised_name field) (promised_fields self) ≡ None }
        ensures { IfOk result (λ interface. interface ≡ with_field self field) }
    {
        let mut interface = self;
        interface.fields.add(alloc, field)?;
        Ok(interface)
    }

    /// True exactly where a field has this name.
    pub fn has_field(&self, name: &str) -> bool
        ensures { IsTrue result ↔ IsSome (under name.now (promised_fields self.now)) }
    {
        self.fields.get(name).is_some()
    }

    /// The name of the type.
    pub fn type_name(&self) -> &str
        ensures { result.now ≡ interface_name self.now }
    {
        self.name.as_str()
    }

    /// The field of this name, or none where there is no such field.
    pub fn get(&self, name: &str) -> Option<&InterfaceField>
        ensures { option_copied result ≡ under name.now (promised_fields self.now) }
    {
        self.fields.get(name)
    }

    /// The fields, under their names.
    pub(crate) fn fields(&self) -> &ByName<InterfaceField>
        ensures { result.now ≡ promised_fields self.now }
    {
        &self.fields
    }

    /// The number of fields. Their keys are their own names, which differ.
    pub fn len(&self) -> usize
        ensures length { result ≡ length (promised_fields self.now) }
        ensures keyed { IsKeyed promised_name (promised_fields self.now) }
        ensures distinct { HasDistinctNames (promised_fields self.now) }
    {
        self.fields.len()
    }

    /// The field at a place, counted from 0.
    pub fn at(&self, index: usize) -> &InterfaceField
        requires { index < length (promised_fields self.now) }
        ensures { slice_get (values_of (promised_fields self.now)) index ≡ Some result.now }
    {
        let (_, field) = self.fields.at(index);
        field
    }

    /// The field at a place, counted from 0, under its name.
    pub fn entry(&self, place: usize) -> (&str, &InterfaceField)
        requires { place < length (promised_fields self.now) }
        ensures { slice_get (promised_fields self.now) place ≡ Some (result.0.now, result.1.now) }
    {
        self.fields.at(place)
    }
}

impl Named for Interface {
    ghost use Rattle.gql_schema.specs.Interface.{interface_name};

    ghost name_of = { interface_name };

    fn own_name(&self) -> &str {
        self.type_name()
    }
}

impl Copied for Interface {
    fn try_clone(&self, alloc: Global) -> Made<Interface> {
        Ok(Interface {
            name: self.name.try_clone(alloc)?,
            fields: self.fields.try_clone(alloc)?,
        })
    }
}

impl Same for Interface {
    fn same(&self, other: &Interface) -> bool {
        self.name == other.name && self.fields.same(&other.fields)
    }
}
