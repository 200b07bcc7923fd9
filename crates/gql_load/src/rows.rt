//! The rows of the constant list.
ghost use Rattle.std.specs.Prelude.{◌≡◌, ◌∷◌, [], codes, IfOk};
ghost use Rattle.gql_base.specs.Pairs.{names_of};
ghost use Rattle.gql_load.specs.Rows.{load_row, load_rows, load_tag};

use gql_base::{Items, Made, Name, Number, Pairs, Text, Value};
use std::alloc::Global;

/// So many rows.
pub(crate) fn load_rows(alloc: Global, count: usize) -> Made<Items<Value>>
    ensures { IfOk result (λ rows. rows ≡ load_rows count) }
{
    let mut rows = Items::with_capacity(alloc, count)?;
    let names = row_names(alloc)?;
    for place in 0..count {
        rows.push(load_row(alloc, &names, place)?)?;
    }
    Ok(rows)
}

/// The row at a place: its members are `id`, the place, and `tag`.
fn load_row(alloc: Global, names: &Pairs<()>, place: usize) -> Made<Value>
    requires { names_of names.now ≡ codes "id" ∷ codes "tag" ∷ [] }
    ensures { IfOk result (λ row. row ≡ load_row place) }
{
    let tag = load_tag(alloc, place)?;
    let mut values = Vec::with_capacity(alloc, 2)?;
    values.push(Value::Number(Number::from_u64(place as u64)))?;
    values.push(Value::String(tag))?;
    Value::object(alloc, names.with_values(alloc, values)?)
}

/// The names of a row's members, which all rows share.
fn row_names(alloc: Global) -> Made<Pairs<()>>
    ensures { IfOk result (λ names. names_of names ≡ codes "id" ∷ codes "tag" ∷ []) }
{
    let mut names = Pairs::with_capacity(alloc, 2)?;
    names.add(Name::new(alloc, "id")?, ())?;
    names.add(Name::new(alloc, "tag")?, ())?;
    names.shared(alloc)
}

/// The tag of the row at a place: one of seven.
fn load_tag(alloc: Global, place: usize) -> Made<Text>
    ensures { IfOk result (λ tag. tag ≡ load_tag place) }
{
    let number = place % 7;
    Text::from_string(format!(in alloc; "t{number}")?)
}
