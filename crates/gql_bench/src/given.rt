//! What a bench answers, as resolvers give it. Values are moved.
ghost use Rattle.std.specs.Prelude.{◌≡◌, map, IfOk};
ghost use Rattle.gql_bench.specs.Given.{given_of};

use gql_base::{Boxed, Items, Made};
use gql_form::Answered;
use gql_resolve::FieldValue;
use std::alloc::Global;

/// What a bench answers, as a resolver gives it.
#[cycle(given)]
pub(crate) fn given_from(alloc: Global, answered: Answered) -> Made<FieldValue<i64>>
    ensures { IfOk result (λ made. made ≡ given_of answered) }
{
    match answered {
        Answered::Value(value) => Ok(FieldValue::Value(value)),
        Answered::Own(own) => Ok(FieldValue::Own(own)),
        Answered::List(items) => Ok(FieldValue::List(given_items(alloc, items)?)),
        Answered::Typed(ty, inner) => {
            let inner = given_from(alloc, inner.into_inner())?;
            let value = Boxed::new(alloc, inner)?;
            Ok(FieldValue::WithType { value, ty })
        }
    }
}

#[cycle(given)]
fn given_items(alloc: Global, items: Items<Answered>) -> Made<Items<FieldValue<i64>>>
    ensures { IfOk result (λ made. made ≡ map given_of items) }
{
    let mut made = Items::with_capacity(alloc, items.len())?;
    for item in items.into_vec() {
        made.push(given_from(alloc, item)?)?;
    }
    Ok(made)
}
