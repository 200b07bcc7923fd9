//! Sums of arguments.
ghost use Rattle.std.specs.Prelude.{◌≡◌, pos, IfOk};
ghost use Rattle.std.specs.Option.{option_copied};
ghost use Rattle.gql_base.specs.Kinds.{members_of_value};
ghost use Rattle.gql_base.specs.Pairs.{under};
ghost use Rattle.gql_bench.specs.Outcome.{plain_error};
ghost use Rattle.gql_bench.specs.Sum.{number_at, number_in, signed_of, sum_behind, sum_outcome};
ghost use Rattle.gql_bench.specs.Sum.{sum_told, whole_sum};

use gql_base::{Error, Made, Name, Number, Pairs, Text, Value};
use gql_form::Path;
use gql_resolve::FieldValue;
use std::alloc::Global;

/// What an answer comes with: a value, or none; or an error.
pub(crate) type Outcome = Result<Option<FieldValue<i64>>, Error>;

/// An error that tells nothing but its message.
pub(crate) fn message_error(alloc: Global, message: &str) -> Made<Error>
    ensures { IfOk result (λ error. error ≡ plain_error message.now) }
{
    let message = Text::new(alloc, message)?;
    Ok(Error {
        message,
        extensions: None,
    })
}

/// What the sum of the arguments at these paths gives.
pub(crate) fn sum_of(alloc: Global, paths: &[Path], arguments: &Pairs<Value>) -> Made<Outcome>
    ensures { IfOk result (λ outcome. outcome ≡ sum_outcome paths.now arguments.now) }
{
    told(alloc, total_of(paths, arguments))
}

/// What a whole sum gives, where there is one.
pub(crate) fn told(alloc: Global, total: Option<i128>) -> Made<Outcome>
    ensures { IfOk result (λ outcome. outcome ≡ sum_told total) }
{
    match total {
        Some(total) => whole(alloc, total),
        None => Ok(Err(message_error(alloc, "internal: not an signed integer")?)),
    }
}

/// What a whole sum gives.
fn whole(alloc: Global, total: i128) -> Made<Outcome>
    ensures { IfOk result (λ outcome. outcome ≡ whole_sum total) }
{
    match i64::try_from(total) {
        Ok(number) => Ok(Ok(Some(FieldValue::Value(Value::Number(Number::from_i64(number)))))),
        Err(_) => Ok(Err(message_error(alloc, "overflow")?)),
    }
}

/// The sum of the arguments at these paths, where each is a whole number of 64 bits with a sign.
fn total_of(paths: &[Path], arguments: &Pairs<Value>) -> Option<i128>
    ensures { result ≡ sum_behind arguments.now (pos 0) paths.now }
{
    let mut total = 0i128;
    for path in paths {
        let number = argument_at(arguments, path)?;
        total += i128::from(number);
    }
    Some(total)
}

/// The number at a path among the arguments.
fn argument_at(arguments: &Pairs<Value>, path: &Path) -> Option<i64>
    ensures { result ≡ number_at arguments.now path.now }
{
    match path.names.as_slice().split_first() {
        Some((name, rest)) => value_at(rest, arguments.get(name.as_str())?),
        None => None,
    }
}

/// The number at a path of names inside a value.
fn value_at(names: &[Name], value: &Value) -> Option<i64>
    ensures { result ≡ number_in names.now value.now }
{
    match names.split_first() {
        Some((name, rest)) => value_at(rest, member_of(value, name.as_str())?),
        None => signed(value),
    }
}

/// The member of this name of a value, where that is an object that has it.
pub(crate) fn member_of<'a>(value: &'a Value, name: &str) -> Option<&'a Value>
    ensures { option_copied result ≡ under name.now (members_of_value value.entry.now) }
{
    match value {
        Value::Object(members) => members.get(name),
        _ => None,
    }
}

/// The whole number of 64 bits with a sign that a value is.
pub(crate) fn signed(value: &Value) -> Option<i64>
    ensures { result ≡ signed_of value.now }
{
    match value {
        Value::Number(number) => number.as_i64(),
        _ => None,
    }
}
