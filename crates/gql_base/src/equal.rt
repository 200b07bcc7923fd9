ghost use Rattle.std.specs.Prelude.{◌≡◌, ◌↔◌, IsTrue};

use crate::pairs::Pairs;
use crate::type_ref::TypeRef;
use crate::value::Value;

/// Members of an object are compared in their order, and an enum never equals a string.
impl PartialEq for Value {
    ghost use Rattle.std.specs.Prelude.{◌≡◌, ◌↔◌, IsTrue};
    ghost use Rattle.gql_base.specs.Same.{is_same, is_same_laws};
    ghost use Rattle.gql_base.specs.contracts.value.Value.{the_row};

    ghost eq = { is_same the_row.coded };

    ghost laws = { is_same_laws the_row.coded };

    fn eq(&self, other: &Value) -> bool
        ensures value { result ≡ is_same the_row.coded self.now other.now }
        ensures decides { IsTrue result ↔ (self.now ≡ other.now) }
    {
        same_value(self, other)
    }
}

impl Eq for Value {
    ghost use Rattle.gql_base.specs.Same.{is_same_equivalence};
    ghost use Rattle.gql_base.specs.contracts.value.Value.{the_row};

    ghost laws = { is_same_equivalence the_row.coded };
}

#[cycle(same)]
fn same_value(a: &Value, b: &Value) -> bool
    ensures { IsTrue result ↔ (a.now ≡ b.now) }
{
    match (a, b) {
        (Value::Null, Value::Null) => true,
        (Value::Boolean(x), Value::Boolean(y)) => *x == *y,
        (Value::Number(x), Value::Number(y)) => *x == *y,
        (Value::String(x), Value::String(y)) => x == y,
        (Value::Enum(x), Value::Enum(y)) => x == y,
        (Value::List(x), Value::List(y)) => same_items(x.as_slice(), y.as_slice()),
        (Value::Object(x), Value::Object(y)) => same_members(x, y),
        _ => false,
    }
}

#[cycle(same)]
fn same_items(a: &[Value], b: &[Value]) -> bool
    ensures { IsTrue result ↔ (a.now ≡ b.now) }
{
    if a.len() != b.len() {
        return false;
    }
    for place in 0..a.len() {
        if !same_value(&a[place], &b[place]) {
            return false;
        }
    }
    true
}

#[cycle(same)]
fn same_members(a: &Pairs<Value>, b: &Pairs<Value>) -> bool
    ensures { IsTrue result ↔ (a.now ≡ b.now) }
{
    if a.len() != b.len() {
        return false;
    }
    for place in 0..a.len() {
        let (name, value) = a.at(place);
        let (other_name, other_value) = b.at(place);
        if name != other_name || !same_value(value, other_value) {
            return false;
        }
    }
    true
}

impl PartialEq for TypeRef {
    ghost use Rattle.std.specs.Prelude.{◌≡◌, ◌↔◌, IsTrue};
    ghost use Rattle.gql_base.specs.Same.{is_same, is_same_laws};
    ghost use Rattle.gql_base.specs.contracts.type_ref.TypeRef.{the_row};

    ghost eq = { is_same the_row.coded };

    ghost laws = { is_same_laws the_row.coded };

    fn eq(&self, other: &TypeRef) -> bool
        ensures value { result ≡ is_same the_row.coded self.now other.now }
        ensures decides { IsTrue result ↔ (self.now ≡ other.now) }
    {
        same_type(self, other)
    }
}

impl Eq for TypeRef {
    ghost use Rattle.gql_base.specs.Same.{is_same_equivalence};
    ghost use Rattle.gql_base.specs.contracts.type_ref.TypeRef.{the_row};

    ghost laws = { is_same_equivalence the_row.coded };
}

fn same_type(a: &TypeRef, b: &TypeRef) -> bool
    ensures { IsTrue result ↔ (a.now ≡ b.now) }
{
    match (a, b) {
        (TypeRef::Named(x), TypeRef::Named(y)) => x == y,
        (TypeRef::NonNull(x), TypeRef::NonNull(y)) => same_type(x.get(), y.get()),
        (TypeRef::List(x), TypeRef::List(y)) => same_type(x.get(), y.get()),
        _ => false,
    }
}
