ghost use Rattle.std.specs.Prelude.{◌≡◌, IfOk, None};
ghost use Rattle.std.specs.Option.{option_copied};
ghost use Rattle.std.proofs.Props.{props};
ghost use Rattle.gql_doc.specs.declared.document.Field.{out-Field};
ghost use Rattle.gql_request.specs.QueryEnv.{NestsIn};

use crate::const_directive::ConstDirective;
use crate::constants::{arguments_of, directives_of};
use crate::open_set::OpenSet;
use crate::selection_fields_iter::SelectionFieldsIter;
use gql_base::{Items, Made, Name, ServerResult, Value};
use gql_doc::Field;
use gql_request::QueryEnv;
use std::alloc::Global;

/// A field as it stands in the document of a query.
#[derive(Clone, Copy, Debug)]
pub struct SelectionField<'a> {
    pub(crate) field: &'a Field,
    pub(crate) env: &'a QueryEnv,
    ghost nests: { NestsIn env.now (out-Field field.now).selection_set } by { Prim.hlevel props },
}

impl<'a> SelectionField<'a> {
    ghost use Rattle.gql_resolve.specs.Beneath.{Seen, fields_beneath, name_of};
    ghost use Rattle.gql_resolve.specs.SelectionField.{alias_of, arguments_in, directives_in};
    ghost use Rattle.gql_resolve.specs.SelectionField.{seen_of};
    ghost use Rattle.gql_resolve.specs.SelectionFields.{fields_left};

    /// A field whose set nests within the levels of its query.
    pub(crate) fn new(field: &'a Field, env: &'a QueryEnv) -> SelectionField<'a>
        requires { NestsIn env.now (out-Field field.now).selection_set }
        ensures field { (seen_of result).field ≡ field.entry.now }
        ensures env { (seen_of result).env ≡ env.entry.now }
    {
        SelectionField { field, env }
    }

    /// The name of the field.
    pub fn name(&self) -> &'a str
        ensures { result.now ≡ name_of (seen_of self.now).field }
    {
        self.field.name.node.as_str()
    }

    /// The alias of the field, if it has one.
    pub fn alias(&self) -> Option<&'a str>
        ensures { option_copied result ≡ alias_of (seen_of self.now).field }
    {
        match &self.field.alias {
            Some(alias) => Some(alias.node.as_str()),
            None => None,
        }
    }

    /// The directives as they are written, with the values of their arguments. A variable that the
    /// operation doesn't define is refused, at the place of the argument's name.
    pub fn directives(&self, alloc: Global) -> Made<ServerResult<Items<ConstDirective>>>
        ensures { let seen = seen_of self.now in
            IfOk result (λ given. given
            ≡ directives_in seen.env (out-Field seen.field).directives) }
    {
        directives_of(alloc, self.env, self.field.directives.as_slice())
    }

    /// The arguments as they are written, with their values. A variable that the operation doesn't
    /// define is refused, at the place of the argument's name.
    pub fn arguments(&self, alloc: Global) -> Made<ServerResult<Items<(Name, Value)>>>
        ensures { let seen = seen_of self.now in
            IfOk result (λ given. given ≡ arguments_in seen.env (out-Field seen.field).arguments) }
    {
        arguments_of(alloc, self.env, self.field.arguments.as_slice())
    }

    /// The fields of the field's set, in document order, through fragments in place and known
    /// spreads, whatever their conditions.
    pub fn selection_set(&self, alloc: Global) -> Made<SelectionFieldsIter<'a>>
        ensures { IfOk result (λ fields. fields_left fields ≡ fields_beneath (seen_of self.now)) }
    {
        SelectionFieldsIter::of(alloc, OpenSet::whole(self.env, &self.field.selection_set))
    }
}
