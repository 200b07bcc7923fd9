//! Answers that are lists of objects, as most with many objects are. They are known by one look at
//! their type and one at what is given, and none of their items needs completion (GraphQL, October
//! 2021, section 6.4.3).
ghost use Rattle.std.specs.Prelude.{◌≡◌, IsTrue, IfSome, not};
ghost use Rattle.gql_base.specs.TypeRef.{innermost, is_nullable};
ghost use Rattle.gql_meaning.specs.Completion.{shape_of};
ghost use Rattle.gql_schema.specs.Table.{types_of};
ghost use Rattle.gql_complete.specs.ObjectLists.{GivesList, IsList, IsListing, IsListValue, IsNamed};
ghost use Rattle.gql_complete.specs.ObjectLists.{items_given, objects_in};

use crate::complete_named::is_object;
use crate::known::Known;
use gql_base::{Error, TypeRef, Value};
use gql_resolve::FieldValue;

/// Whether no item may be null, where a result comes to a list of objects of the name that was
/// looked up.
#[tactic(auto, using(crate::proofs::ListingLemmas::list_known))]
pub fn object_list<V>(
    known: &Known<'_>,
    ty: &TypeRef,
    outcome: &Result<Option<FieldValue<V>>, Error>,
) -> Option<bool>
    requires { known.now.name.now ≡ innermost ty.now }
    ensures { IfSome result (λ non_null. shape_of (types_of known.now.types.now) ty.now outcome.now
        ≡ objects_in known.now.name.now non_null (items_given outcome.now)) }
{
    if !is_object(known.ty) {
        return None;
    }
    if !is_list(outcome) {
        return None;
    }
    list_of_name(ty)
}

/// Whether a result is a list with an item.
fn is_list<V>(outcome: &Result<Option<FieldValue<V>>, Error>) -> bool
    ensures { IsTrue result → GivesList outcome.now }
{
    match outcome {
        Ok(Some(given)) => is_list_given(given),
        _ => false,
    }
}

/// The same of what is given.
#[tactic(auto, using(crate::proofs::ObjectListLemmas::given_list, crate::proofs::ObjectListLemmas::given_value))]
fn is_list_given<V>(given: &FieldValue<V>) -> bool
    ensures { IsTrue result → IsList given.now }
{
    match given {
        FieldValue::List(items) => !items.is_empty(),
        FieldValue::Value(value) => is_list_value(value),
        _ => false,
    }
}

/// Whether a value is a list with an item.
fn is_list_value(value: &Value) -> bool
    ensures { IsTrue result → IsListValue value.now }
{
    match value {
        Value::List(items) => !items.is_empty(),
        _ => false,
    }
}

/// Whether no item may be null, where a type is a list, non-null or not, of the type of a name.
#[cycle(list_of_name)]
fn list_of_name(ty: &TypeRef) -> Option<bool>
    ensures { IfSome result (λ non_null. IsListing non_null ty.now) }
{
    match ty {
        TypeRef::Named(_) => None,
        TypeRef::NonNull(inner) => list_of_name(inner.get()),
        TypeRef::List(inner) => items_of_name(inner.get()),
    }
}

/// The same of the type of the items.
fn items_of_name(ty: &TypeRef) -> Option<bool>
    ensures { IfSome result (λ non_null. IsNamed ty.now × (non_null ≡ not (is_nullable ty.now))) }
{
    if is_named(ty) {
        return Some(!ty.is_nullable());
    }
    None
}

/// Whether a type is that of a name, non-null or not.
#[cycle(is_named)]
fn is_named(ty: &TypeRef) -> bool
    ensures { IsTrue result → IsNamed ty.now }
{
    match ty {
        TypeRef::Named(_) => true,
        TypeRef::NonNull(inner) => is_named(inner.get()),
        TypeRef::List(_) => false,
    }
}
