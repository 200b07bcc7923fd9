//! What the fields of a key are compared with: its first occurrence (GraphQL, October 2021, section
//! 5.3.2).
ghost use Rattle.std.specs.Prelude.{◌≡◌, IfOk};
ghost use Rattle.gql_select.specs.Alike.{alike};

use gql_base::Made;
use gql_doc::{Field, Positioned};
use gql_select::{Given, same_as_given};
use std::alloc::Global;
use std::marker::Model;

/// A field that others are compared with: its arguments are found by name. Contracts see the field.
#[derive(Drop)]
pub(crate) struct Asked<'a> {
    field: &'a Positioned<Field>,
    given: Given<'a>,
}

impl<'a> Model for Asked<'a> {
    ghost use Rattle.std.specs.Prelude.{◌≡◌};
    ghost use Rattle.gql_doc.specs.declared.document.Field.{Field as Placed};
    ghost use Rattle.gql_doc.specs.declared.document.Positioned.{Positioned as At};
    ghost use Rattle.gql_select.specs.Alike.{arguments_of};
    ghost use Rattle.gql_doc.specs.contracts.document.Field as field_contract;
    ghost use Rattle.gql_doc.specs.contracts.document.Positioned as positioned_contract;

    ghost Value = { At Placed };

    ghost coded = { (positioned_contract.the_row field_contract.the_row).coded };

    ghost view = { λ asked. asked.field.now };

    ghost invariant = { λ asked. asked.given ≡ arguments_of asked.field.now };
}

impl<'a> Asked<'a> {
    pub(crate) fn new(alloc: Global, field: &'a Positioned<Field>) -> Made<Asked<'a>>
        ensures { IfOk result (λ asked. asked ≡ field.entry.now) }
    {
        let given = Given::new(alloc, field.node.arguments.as_slice())?;
        Ok(Asked { field, given })
    }

    /// The field itself.
    pub(crate) fn field(&self) -> &'a Positioned<Field>
        ensures { result.now ≡ self.now }
    {
        self.field
    }

    /// True exactly where another field asks the same. What it costs goes by the other's arguments.
    pub(crate) fn is_alike(&self, alloc: Global, other: &Positioned<Field>) -> Made<bool>
        ensures { IfOk result (λ same. same ≡ alike self.now other.now) }
    {
        if self.field.node.name.node.as_str() != other.node.name.node.as_str() {
            return Ok(false);
        }
        same_as_given(alloc, &self.given, other.node.arguments.as_slice())
    }
}
