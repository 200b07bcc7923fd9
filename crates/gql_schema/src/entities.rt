//! What federation adds to a table: a scalar for representations, and the union of the entities.
ghost use Rattle.std.specs.Prelude.{◌≡◌, IfOk};
ghost use Rattle.gql_schema.specs.Entities.{entities, has_entities, is_entity, with_any};
ghost use Rattle.gql_schema.specs.Entities.{with_entities, with_entity_union};
ghost use Rattle.gql_schema.specs.Table.{types_of};

use crate::name_set::NameSet;
use crate::possible::add_where;
use crate::scalar::Scalar;
use crate::schema_type::SchemaType;
use crate::types::Types;
use crate::union::Union;
use gql_base::{Made, Name};
use std::alloc::Global;

impl Types {
    /// True exactly where an object has a key.
    pub fn has_entities(&self) -> bool
        ensures { result ≡ has_entities (types_of self.now) }
    {
        for place in 0..self.len() {
            let (_, ty) = self.entry(place);
            if is_entity_type(ty) {
                return true;
            }
        }
        false
    }

    /// The names of the objects with a key, in the order of their registration.
    pub fn entities(&self, alloc: Global) -> Made<NameSet>
        ensures { IfOk result (λ names. names ≡ entities (types_of self.now)) }
    {
        let mut names = NameSet::new(alloc);
        for place in 0..self.len() {
            let (name, ty) = self.entry(place);
            add_where(alloc, &mut names, is_entity_type(ty), name)?;
        }
        Ok(names)
    }

    /// This table with the scalar `_Any`, which takes every value, and the union `_Entity` of the
    /// objects with a key. Types that were registered under these names are replaced in their
    /// places.
    pub fn with_entities(self, alloc: Global) -> Made<Types>
        ensures { IfOk result (λ types. types_of types ≡ with_entities (types_of self)) }
    {
        let types = self.with_any(alloc)?;
        let reserved = types.with_entity_union(alloc, NameSet::new(alloc))?;
        let members = reserved.entities(alloc)?;
        reserved.with_entity_union(alloc, members)
    }

    fn with_any(self, alloc: Global) -> Made<Types>
        ensures { IfOk result (λ types. types_of types ≡ with_any (types_of self)) }
    {
        let mut types = self;
        types.register(alloc, SchemaType::Scalar(Scalar::new(alloc, "_Any")?))?;
        Ok(types)
    }

    fn with_entity_union(self, alloc: Global, members: NameSet) -> Made<Types>
        ensures { IfOk result (λ types. types_of types
            ≡ with_entity_union (types_of self) members) }
    {
        let union_type = Union::with_members(Name::new(alloc, "_Entity")?, members);
        let mut types = self;
        types.register(alloc, SchemaType::Union(union_type))?;
        Ok(types)
    }
}

/// True exactly where the type is an object with a key.
fn is_entity_type(ty: &SchemaType) -> bool
    ensures { result ≡ is_entity ty.now }
{
    match ty {
        SchemaType::Object(object) => !object.keys().is_empty(),
        _ => false,
    }
}
