//! The faults of the executor's own, as what a place comes to.
ghost use Rattle.std.specs.Prelude.{◌≡◌, ◌++◌, IfOk, codes};
ghost use Rattle.gql_meaning.specs.Completion.{fault};

use gql_base::{Error, Made, Name, Text};
use gql_place::Shape;
use gql_resolve::FieldValue;
use std::alloc::Global;

/// The fault of a text.
pub(crate) fn fault_of<V: Drop>(alloc: Global, message: &str) -> Made<Shape<Name, FieldValue<V>>>
    ensures { IfOk result (λ shape. shape ≡ fault message.now) }
{
    let error = Error::new(alloc, message)?;
    Ok(Shape::Fault(error))
}

/// The fault of three texts one after another.
pub(crate) fn fault_of_three<V: Drop>(
    alloc: Global,
    first: &str,
    name: &str,
    last: &str,
) -> Made<Shape<Name, FieldValue<V>>>
    ensures { IfOk result (λ shape. shape ≡ fault (first.now ++ (name.now ++ last.now))) }
{
    let mut message = String::new(alloc);
    message.push_str(first)?;
    message.push_str(name)?;
    message.push_str(last)?;
    Ok(Shape::Fault(Error {
        message: Text::from_string(message)?,
        extensions: None,
    }))
}

/// The fault of two names between three texts.
pub(crate) fn fault_of_five<V: Drop>(
    alloc: Global,
    first: &str,
    one: &str,
    between: &str,
    other: &str,
) -> Made<Shape<Name, FieldValue<V>>>
    ensures { IfOk result (λ shape. shape ≡ fault (first.now
        ++ (one.now ++ (between.now ++ (other.now ++ codes "\""))))) }
{
    let mut message = String::new(alloc);
    message.push_str(first)?;
    message.push_str(one)?;
    message.push_str(between)?;
    message.push_str(other)?;
    message.push_str("\"")?;
    Ok(Shape::Fault(Error {
        message: Text::from_string(message)?,
        extensions: None,
    }))
}
