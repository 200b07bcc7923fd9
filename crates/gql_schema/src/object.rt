ghost use Rattle.std.specs.Prelude.{◌≡◌, ◌↔◌, [], ◌<◌, None, IsTrue, IsSome, IfOk, length};
ghost use Rattle.std.specs.Prelude.{slice_get, Some};
ghost use Rattle.std.specs.Option.{option_copied};
ghost use Rattle.gql_base.specs.Pairs.{under, values_of, HasDistinctNames};
ghost use Rattle.gql_schema.specs.Keyed.{IsKeyed};
ghost use Rattle.gql_schema.specs.NameSet.{is_among};

use crate::by_name::ByName;
use crate::field::Field;
use crate::interfaces::Interfaces;
use crate::named::Named;
use crate::same::Same;
use gql_base::{Copied, Items, Made, Name, Text};
use std::alloc::Global;

/// An object type (GraphQL, October 2021, section 3.6): its name, its fields in the order in which
/// they were added, the interfaces that it implements, and its keys.
#[derive(Debug, Drop)]
pub struct Object {
    name: Name,
    fields: ByName<Field>,
    interfaces: Interfaces,
    keys: Items<Text>,
}

impl Object {
    ghost use Rattle.gql_schema.specs.Field.{field_name};
    ghost use Rattle.gql_schema.specs.Object.{object_name, fields_of, interfaces_of, keys_of};
    ghost use Rattle.gql_schema.specs.Object.{with_field, with_interface, with_key};

    /// An object type without fields.
    pub fn new(alloc: Global, name: &str) -> Made<Object>
        ensures name { IfOk result (λ object. object_name object ≡ name.now) }
        ensures fields { IfOk result (λ object. fields_of object ≡ []) }
        ensures interfaces { IfOk result (λ object. interfaces_of object ≡ []) }
        ensures keys { IfOk result (λ object. keys_of object ≡ []) }
    {
        Ok(Object::with_name(alloc, Name::new(alloc, name)?))
    }

    /// An object type without fields, which takes the name.
    pub fn with_name(alloc: Global, name: Name) -> Object
        ensures name { object_name result ≡ name }
        ensures fields { fields_of result ≡ [] }
        ensures interfaces { interfaces_of result ≡ [] }
        ensures keys { keys_of result ≡ [] }
    {
        Object {
            name,
            fields: ByName::new(alloc),
            interfaces: Interfaces::new(alloc),
            keys: Items::new(alloc),
        }
    }

    /// Adds a field, whose name isn't there yet, after the others.
    pub fn field(self, alloc: Global, field: Field) -> Made<Object>
        requires { under (field_name field) (fields_of self) ≡ None }
        ensures { IfOk result (λ object. object ≡ with_field self field) }
    {
        let mut object = self;
        object.fields.add(alloc, field)?;
        Ok(object)
    }

    /// Says that the object implements an interface of this name. A second one of a name changes
    /// nothing.
    pub fn implement(self, alloc: Global, interface: &str) -> Made<Object>
        ensures { IfOk result (λ object. object ≡ with_interface self interface.now) }
    {
        let Object {
            name,
            fields,
            interfaces,
            keys,
        } = self;
        let interfaces = interfaces.with(alloc, interface)?;
        Ok(Object {
            name,
            fields,
            interfaces,
            keys,
        })
    }

    /// Adds the fields of a key, by which the object is an entity of federation.
    pub fn key(self, alloc: Global, fields: &str) -> Made<Object>
        ensures { IfOk result (λ object. object ≡ with_key self fields.now) }
    {
        let mut object = self;
        object.keys.push(Text::new(alloc, fields)?)?;
        Ok(object)
    }

    /// True exactly where a field has this name.
    pub fn has_field(&self, name: &str) -> bool
        ensures { IsTrue result ↔ IsSome (under name.now (fields_of self.now)) }
    {
        self.fields.get(name).is_some()
    }

    /// The name of the type.
    pub fn type_name(&self) -> &str
        ensures { result.now ≡ object_name self.now }
    {
        self.name.as_str()
    }

    /// The field of this name, or none where there is no such field.
    pub fn get(&self, name: &str) -> Option<&Field>
        ensures { option_copied result ≡ under name.now (fields_of self.now) }
    {
        self.fields.get(name)
    }

    /// The fields, under their names.
    pub(crate) fn fields(&self) -> &ByName<Field>
        ensures { result.now ≡ fields_of self.now }
    {
        &self.fields
    }

    /// The number of fields. Their keys are their own names, which differ.
    pub fn len(&self) -> usize
        ensures length { result ≡ length (fields_of self.now) }
        ensures keyed { IsKeyed field_name (fields_of self.now) }
        ensures distinct { HasDistinctNames (fields_of self.now) }
    {
        self.fields.len()
    }

    /// The field at a place, counted from 0.
    pub fn at(&self, index: usize) -> &Field
        requires { index < length (fields_of self.now) }
        ensures { slice_get (values_of (fields_of self.now)) index ≡ Some result.now }
    {
        let (_, field) = self.fields.at(index);
        field
    }

    /// The field at a place, counted from 0, under its name.
    pub fn entry(&self, place: usize) -> (&str, &Field)
        requires { place < length (fields_of self.now) }
        ensures { slice_get (fields_of self.now) place ≡ Some (result.0.now, result.1.now) }
    {
        self.fields.at(place)
    }

    /// The names of the interfaces that the object implements, in the order in which they were
    /// added.
    pub fn interfaces(&self) -> &[Name]
        ensures { result.now ≡ interfaces_of self.now }
    {
        self.interfaces.as_slice()
    }

    /// True exactly where the object says that it implements an interface of this name.
    pub fn implements(&self, name: &str) -> bool
        ensures { result ≡ is_among name.now (interfaces_of self.now) }
    {
        self.interfaces.has(name)
    }

    /// The fields of each key, in the order in which they were added.
    pub fn keys(&self) -> &[Text]
        ensures { result.now ≡ keys_of self.now }
    {
        self.keys.as_slice()
    }
}

impl Named for Object {
    ghost use Rattle.gql_schema.specs.Object.{object_name};

    ghost name_of = { object_name };

    fn own_name(&self) -> &str {
        self.type_name()
    }
}

impl Copied for Object {
    fn try_clone(&self, alloc: Global) -> Made<Object> {
        Ok(Object {
            name: self.name.try_clone(alloc)?,
            fields: self.fields.try_clone(alloc)?,
            interfaces: self.interfaces.try_clone(alloc)?,
            keys: self.keys.try_clone(alloc)?,
        })
    }
}

impl Same for Object {
    fn same(&self, other: &Object) -> bool {
        self.name == other.name
            && self.fields.same(&other.fields)
            && self.interfaces.same(&other.interfaces)
            && self.keys.same(&other.keys)
    }
}
