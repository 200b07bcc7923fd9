//! What a table tells of the fields and the objects of its types.
ghost use Rattle.std.specs.Prelude.{◌≡◌, ◌∷◌, ◌++◌, [], IfOk, OnOk, option_map, false};
ghost use Rattle.std.specs.Option.{option_copied};
ghost use Rattle.gql_base.specs.Pairs.{names_of};
ghost use Rattle.gql_schema.specs.DeclaredField.{declared_behind};
ghost use Rattle.gql_schema.specs.NameSet.{is_among};
ghost use Rattle.gql_schema.specs.Table.{types_of};
ghost use Rattle.gql_schema.specs.TableReading.{chosen, field, is_known_object, is_possible};
ghost use Rattle.gql_schema.specs.TableReading.{is_possible_object, possible};

use crate::covariance::{is_known_object_type, is_object_type, type_has};
use crate::declared_field::DeclaredField;
use crate::name_set::NameSet;
use crate::schema_type::SchemaType;
use crate::types::Types;
use gql_base::{Made, Name};
use std::alloc::Global;

impl Types {
    /// The field of this name of an object, an interface or a subscription, or none where there is
    /// no such type or field.
    pub fn field(&self, owner: &str, name: &str) -> Option<DeclaredField<'_>>
        ensures { option_map declared_behind result ≡ field (types_of self.now) owner.now name.now }
    {
        let ty = self.get(owner)?;
        ty.declared(name)
    }

    /// True exactly where the object is one that the type can be. No type is gone through.
    #[tactic(auto, using(crate::proofs::PossibleLemmas::possible_tested))]
    pub fn is_possible(&self, type_name: &str, object: &str) -> bool
        ensures { result ≡ is_possible (types_of self.now) type_name.now object.now }
    {
        // (asking the number shows that no type is there twice)
        let _distinct = self.len();
        is_known_object_type(self.get(object)) && type_has(self, type_name, object)
    }

    /// The names of the objects that a type can be, in the order of their registration.
    pub fn possible(&self, alloc: Global, type_name: &str) -> Made<NameSet>
        ensures { IfOk result (λ names. names ≡ possible (types_of self.now) type_name.now) }
    {
        let mut names = NameSet::new(alloc);
        for place in 0..self.len() {
            let (name, ty) = self.entry(place);
            let can_be = can_be_object(self, type_name, name, ty);
            add_where(alloc, &mut names, can_be, name)?;
        }
        Ok(names)
    }
}

/// True exactly where this type under its name is an object that the type of the other name can be.
fn can_be_object(types: &Types, type_name: &str, name: &str, ty: &SchemaType) -> bool
    ensures { result ≡ is_possible_object (types_of types.now) type_name.now (name.now, ty.now) }
{
    is_object_type(ty) && type_has(types, type_name, name)
}

/// Adds a name that isn't there, where it is chosen.
pub(crate) fn add_where(alloc: Global, names: &mut NameSet, is_chosen: bool, name: &str) -> Made<()>
    requires { is_among name.now names.old ≡ false }
    ensures { OnOk result (names.new ≡ names.old ++ chosen is_chosen name.now) }
{
    if is_chosen {
        names.add_fresh(Name::new(alloc, name)?)
    } else {
        Ok(())
    }
}
