ghost use Rattle.std.specs.Prelude.{◌≡◌, ◌↔◌, ◌<◌, ◌++◌, ◌∷◌, [], length, IsTrue, IfOk, OnOk};
ghost use Rattle.std.specs.Prelude.{MatchOption};
ghost use Rattle.std.specs.List.{flat_map};

use crate::naming::add_named;
use crate::selection_field::SelectionField;
use gql_base::{Items, Made};
use std::alloc::Global;

/// Fields of a query of which more is to be known: which fields stand under them.
#[derive(Drop)]
pub struct Lookahead<'a> {
    pub(crate) fields: Items<SelectionField<'a>>,
}

impl<'a> Lookahead<'a> {
    ghost use Rattle.gql_resolve.specs.Beneath.{fields_beneath, named};
    ghost use Rattle.gql_resolve.specs.Lookahead.{covered};
    ghost use Rattle.gql_resolve.specs.SelectionField.{all_seen, seen_of};

    /// A look at what is under a field.
    pub fn from_field(alloc: Global, field: SelectionField<'a>) -> Made<Lookahead<'a>>
        ensures { IfOk result (λ ahead. covered ahead ≡ seen_of field.entry ∷ []) }
    {
        let mut fields = Items::new(alloc);
        fields.push(field)?;
        Ok(Lookahead { fields })
    }

    /// A look at what is under these fields, or none where there is no field.
    pub fn from_fields(alloc: Global, fields: &[SelectionField<'a>]) -> Made<Option<Lookahead<'a>>>
        ensures { IfOk result (λ made. MatchOption made (fields.entry.now ≡ [])
            (λ ahead. (covered ahead ≡ all_seen fields.entry.now)
            × (0 < length fields.entry.now))) }
    {
        if fields.is_empty() {
            return Ok(None);
        }
        let fields = Items::from_slice(alloc, fields)?;
        Ok(Some(Lookahead { fields }))
    }

    /// The fields of a name that stand under, through fragments in place and known spreads,
    /// whatever their conditions. Aliases don't count.
    pub fn field(&self, alloc: Global, name: &str) -> Made<Lookahead<'a>>
        ensures { IfOk result (λ deeper. covered deeper
            ≡ flat_map (λ seen. named name.now (fields_beneath seen)) (covered self.now)) }
    {
        let mut fields = Items::new(alloc);
        for field in self.fields.as_slice() {
            add_named(alloc, &mut fields, field, name)?;
        }
        Ok(Lookahead { fields })
    }

    /// True exactly where there is a field.
    pub fn exists(&self) -> bool
        ensures { IsTrue result ↔ (0 < length (covered self.now)) }
    {
        self.fields.len() > 0
    }

    /// The fields that are looked at.
    pub fn selection_fields(&self, alloc: Global) -> Made<Items<SelectionField<'a>>>
        ensures { IfOk result (λ fields. all_seen fields ≡ covered self.now) }
    {
        Items::from_slice(alloc, self.fields.as_slice())
    }
}
