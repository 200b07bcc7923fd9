//! Which values are written alike.
ghost use Rattle.std.specs.Prelude.{◌≡◌, ◌↔◌, IsTrue};

use gql_base::Pairs;
use gql_doc::DocValue;

/// True exactly where both values are equal. Members of an object are compared in their order.
#[cycle(written)]
pub fn same_value(one: &DocValue, other: &DocValue) -> bool
    ensures { IsTrue result ↔ (one.now ≡ other.now) }
{
    match (one, other) {
        (DocValue::Variable(x), DocValue::Variable(y)) => x == y,
        (DocValue::Null, DocValue::Null) => true,
        (DocValue::Boolean(x), DocValue::Boolean(y)) => *x == *y,
        (DocValue::Number(x), DocValue::Number(y)) => *x == *y,
        (DocValue::String(x), DocValue::String(y)) => x == y,
        (DocValue::Enum(x), DocValue::Enum(y)) => x == y,
        (DocValue::List(x), DocValue::List(y)) => same_items(x.as_slice(), y.as_slice()),
        (DocValue::Object(x), DocValue::Object(y)) => same_members(x, y),
        _ => false,
    }
}

#[cycle(written)]
fn same_items(one: &[DocValue], other: &[DocValue]) -> bool
    ensures { IsTrue result ↔ (one.now ≡ other.now) }
{
    if one.len() != other.len() {
        return false;
    }
    for place in 0..one.len() {
        if !same_value(&one[place], &other[place]) {
            return false;
        }
    }
    true
}

#[cycle(written)]
fn same_members(one: &Pairs<DocValue>, other: &Pairs<DocValue>) -> bool
    ensures { IsTrue result ↔ (one.now ≡ other.now) }
{
    if one.len() != other.len() {
        return false;
    }
    for place in 0..one.len() {
        let (name, value) = one.at(place);
        let (other_name, other_value) = other.at(place);
        if name != other_name || !same_value(value, other_value) {
            return false;
        }
    }
    true
}
