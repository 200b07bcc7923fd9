//! Values of a document in which no variable stands.
ghost use Rattle.std.specs.Prelude.{◌≡◌};
ghost use Rattle.gql_fields.specs.UsePlaces.{are_constant as hold_none, is_constant as holds_none};
ghost use Rattle.gql_fields.specs.UsePlaces.{items_constant, members_constant};

use gql_base::Pairs;
use gql_doc::{Argument, DocValue};

/// True exactly where no variable stands in these arguments.
pub fn are_constant(arguments: &[Argument]) -> bool
    ensures { result ≡ hold_none arguments.now }
{
    for argument in arguments {
        if !is_constant(&argument.value.node) {
            return false;
        }
    }
    true
}

#[cycle(constant)]
fn is_constant(value: &DocValue) -> bool
    ensures { result ≡ holds_none value.now }
{
    match value {
        DocValue::Variable(_) => false,
        DocValue::List(items) => items_are_constant(items.as_slice()),
        DocValue::Object(members) => members_are_constant(members),
        DocValue::Null
        | DocValue::Boolean(_)
        | DocValue::Number(_)
        | DocValue::String(_)
        | DocValue::Enum(_) => true,
    }
}

#[cycle(constant)]
fn items_are_constant(items: &[DocValue]) -> bool
    ensures { result ≡ items_constant items.now }
{
    for value in items {
        if !is_constant(value) {
            return false;
        }
    }
    true
}

#[cycle(constant)]
fn members_are_constant(members: &Pairs<DocValue>) -> bool
    ensures { result ≡ members_constant members.now }
{
    for at in 0..members.len() {
        let (_, value) = members.at(at);
        if !is_constant(value) {
            return false;
        }
    }
    true
}
