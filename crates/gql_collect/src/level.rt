//! The fields of an object, as ExecuteSelectionSet goes through them (GraphQL, October 2021,
//! section 6.3).
ghost use Rattle.std.specs.Prelude.{◌≡◌, length};
ghost use Rattle.std.specs.Coded.{Coded-set, Π_prop};
ghost use Rattle.std.proofs.Props.{props};
ghost use Rattle.gql_doc.specs.Depth.{field_set};
ghost use Rattle.gql_request.specs.QueryEnv.{NestsIn};
ghost use Rattle.gql_collect.specs.Groups.{item_of, united};
ghost use Rattle.gql_collect.specs.KeyNames.{names_in};
ghost use Rattle.gql_collect.specs.Known.{IsOfAsked, copied_set};

use crate::asks::Asks;
use crate::basis::Basis;
use crate::group::Group;
use crate::key_names::Keys;
use gql_base::Name;
use gql_doc::Field;
use gql_schema::SchemaType;
use std::rc::Rc;

/// A field of an object, merged over its occurrences, with what it asks there. Where there are
/// several occurrences, one field stands for them all.
#[derive(Drop)]
pub struct Node<'a> {
    pub basis: Basis<'a>,
    pub group: Group<'a>,
    pub item: Option<Field>,
    pub asks: Asks,
    /// What stands under the innermost name of its type in the table, where an answer is asked.
    pub ty: Option<&'a SchemaType>,
    pub ghost whole: { item ≡ item_of group } by { Coded-set item-code item (item_of group) },
    pub ghost nests: { NestsIn basis.env.now (field_set (united group)) } by { Prim.hlevel props },
    pub ghost known: { IsOfAsked basis.types.now asks ty } by { Π_prop (λ _. copied_set ty-code) },
}

/// The fields of an object under their keys, in the order of the response.
#[derive(Drop)]
pub struct Level<'a> {
    pub object: Name,
    pub keys: Keys,
    pub nodes: Vec<Rc<Node<'a>>>,
    pub ghost paired: { length nodes.items ≡ length (names_in keys) },
}
