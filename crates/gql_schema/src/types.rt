ghost use Rattle.std.specs.Prelude.{◌≡◌, ◌↔◌, [], ◌<◌, length, slice_get, IfOk, IfSome, IsTrue};
ghost use Rattle.std.specs.Prelude.{OnOk, OnErr, Some};
ghost use Rattle.std.specs.Option.{option_copied};
ghost use Rattle.gql_base.specs.Names.{place_of};
ghost use Rattle.gql_base.specs.Pairs.{under, put, names_of, values_of, HasDistinctNames};
ghost use Rattle.gql_schema.specs.Keyed.{IsKeyed};

use crate::by_name::ByName;
use crate::checks::first_refusal;
use crate::same::Same;
use crate::scalar::Scalar;
use crate::scalar_rule::ScalarRule;
use crate::schema_error::SchemaError;
use crate::schema_type::SchemaType;
use gql_base::{Copied, Made};
use std::alloc::Global;

/// The table of a schema's types. The types stand in the order of their registration.
#[derive(Debug, Drop)]
pub struct Types {
    table: ByName<SchemaType>,
}

impl Types {
    ghost use Rattle.gql_schema.specs.Types.{type_name};
    ghost use Rattle.gql_schema.specs.Table.{types_of};

    /// No type at all.
    pub fn new(alloc: Global) -> Types
        ensures { types_of result ≡ [] }
    {
        Types {
            table: ByName::new(alloc),
        }
    }

    /// Registers a type under its name. A second one under a name takes the place of the first.
    pub fn register(&mut self, alloc: Global, ty: SchemaType) -> Made<()>
        ensures ok { OnOk result (types_of self.new ≡ put (types_of self.old) (type_name ty) ty) }
        ensures err { OnErr result (self.new ≡ self.old) }
    {
        self.table.put(alloc, ty)
    }

    /// The type of this name, or none where there is no such type.
    pub fn get(&self, name: &str) -> Option<&SchemaType>
        ensures { option_copied result ≡ under name.now (types_of self.now) }
    {
        self.table.get(name)
    }

    /// The number of types. Their keys are their own names, which differ.
    pub fn len(&self) -> usize
        ensures length { result ≡ length (types_of self.now) }
        ensures keyed { IsKeyed type_name (types_of self.now) }
        ensures distinct { HasDistinctNames (types_of self.now) }
    {
        self.table.len()
    }

    /// The type at a place, counted from 0.
    pub fn at(&self, index: usize) -> &SchemaType
        requires { index < length (types_of self.now) }
        ensures { slice_get (values_of (types_of self.now)) index ≡ Some result.now }
    {
        let (_, ty) = self.table.at(index);
        ty
    }

    /// The type at a place, counted from 0, under its name.
    pub fn entry(&self, place: usize) -> (&str, &SchemaType)
        requires { place < length (types_of self.now) }
        ensures { slice_get (types_of self.now) place ≡ Some (result.0.now, result.1.now) }
    {
        self.table.at(place)
    }

    /// The place of the type of this name, counted from 0, or none where there is no such type.
    pub fn place_of(&self, name: &str) -> Option<usize>
        ensures place { result ≡ place_of name.now (names_of (types_of self.now)) }
        ensures within { IfSome result (λ place. place < length (types_of self.now)) }
    {
        self.table.place_of(name)
    }

    /// True exactly where both tables are equal.
    pub fn equals(&self, other: &Types) -> bool
        ensures { IsTrue result ↔ (self.now ≡ other.now) }
    {
        self.table.same(&other.table)
    }
}

impl Types {
    ghost use Rattle.gql_schema.specs.Table.{types_of};
    ghost use Rattle.gql_schema.specs.Finished.{IsFinished, KeepsTypes};
    ghost use Rattle.gql_schema.specs.Sound.{with_built_in, with_scalar};

    /// The table with the scalars that every schema has, where no rule is broken, and else the
    /// first refusal.
    pub fn finish(self, alloc: Global) -> Made<Result<Types, SchemaError>>
        ensures finished { IfOk result (λ finished. IsFinished (with_built_in (types_of self)) finished) }
        ensures kept { IfOk result (λ finished. KeepsTypes (types_of self) finished) }
    {
        let mut types = self;
        types.register_scalar(alloc, "Int", ScalarRule::Int)?;
        types.register_scalar(alloc, "String", ScalarRule::Text)?;
        types.register_scalar(alloc, "Boolean", ScalarRule::Bool)?;
        types.register_scalar(alloc, "ID", ScalarRule::Id)?;
        match first_refusal(alloc, &types)? {
            Some(error) => Ok(Err(error)),
            None => Ok(Ok(types)),
        }
    }

    fn register_scalar(&mut self, alloc: Global, name: &str, rule: ScalarRule) -> Made<()>
        ensures { OnOk result (types_of self.new ≡ with_scalar (types_of self.old) name.now rule) }
    {
        let scalar = Scalar::new(alloc, name)?.rule(rule);
        self.register(alloc, SchemaType::Scalar(scalar))
    }
}

impl Copied for Types {
    fn try_clone(&self, alloc: Global) -> Made<Types> {
        let table = self.table.try_clone(alloc)?;
        Ok(Types { table })
    }
}
