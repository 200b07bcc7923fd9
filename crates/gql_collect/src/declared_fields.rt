//! The fields that an object declares: a field that it doesn't is no occurrence (GraphQL, October
//! 2021, section 6.3).
ghost use Rattle.std.specs.Prelude.{◌≡◌, ◌<◌, ◌+◌, ◌||◌, true, is_some, length};
ghost use Rattle.gql_collect.specs.Basis.{execution_of, schema_of};
ghost use Rattle.gql_collect.specs.DeclaredFields.{AreDeclared, declared_among, declares};
ghost use Rattle.gql_collect.specs.Execution.{is_typename};
ghost use Rattle.gql_collect.specs.TableSetting.{field_in};
ghost use Rattle.gql_schema.specs.Table.{types_of};
ghost use Rattle.gql_schema.specs.TableReading.{field as field_of_table};
ghost use Rattle.gql_select.specs.Alike.{name_of};
ghost use Rattle.gql_select.specs.Behind.{all_behind};

use crate::asks_for::is_only_introspection;
use crate::basis::Basis;
use gql_doc::{Field, Positioned};
use gql_schema::Types;

/// The fields that an object declares, of those that were collected for it.
pub(crate) fn declared_fields<'a>(
    basis: &Basis<'_>,
    object: &str,
    fields: Vec<&'a Positioned<Field>>,
) -> Vec<&'a Positioned<Field>>
    ensures { all_behind result.items
        ≡ declared_among (execution_of basis.now) object.now (all_behind fields.entry.items) }
{
    if are_declared(basis, object, fields.as_slice()) {
        return fields;
    }
    let mut fields = fields;
    fields.retain(|field| declares(basis, object, *field));
    fields
}

/// Whether an object declares all of these fields.
fn are_declared(basis: &Basis<'_>, object: &str, fields: &[&Positioned<Field>]) -> bool
    ensures { result ≡ true → AreDeclared (execution_of basis.now) object.now fields.now
        (length fields.now) }
{
    for place in 0..fields.len() {
        if !is_declared_at(basis, object, fields, place) {
            return false;
        }
    }
    true
}

/// Whether it declares the field at a place, where it does those before. The name of the one before
/// isn't looked up again.
#[tactic(auto, using(crate::proofs::DeclaredFieldLemmas::declared_more, crate::proofs::DeclaredFieldLemmas::declared_again))]
fn is_declared_at(
    basis: &Basis<'_>,
    object: &str,
    fields: &[&Positioned<Field>],
    place: usize,
) -> bool
    requires inside { place < length fields.now }
    requires before { AreDeclared (execution_of basis.now) object.now fields.now place }
    ensures { result ≡ true → AreDeclared (execution_of basis.now) object.now fields.now
        (place + 1) }
{
    let field = fields[place];
    if place > 0 && have_one_name(fields[place - 1], field) {
        return true;
    }
    declares(basis, object, field)
}

/// True only where two fields have one name.
fn have_one_name(one: &Positioned<Field>, other: &Positioned<Field>) -> bool
    ensures { result ≡ true → name_of one.now ≡ name_of other.now }
{
    one.node.name.node.as_str() == other.node.name.node.as_str()
}

/// Whether an object declares a field; in introspection-only mode no type is looked at.
fn declares(basis: &Basis<'_>, object: &str, field: &Positioned<Field>) -> bool
    ensures { result ≡ declares (execution_of basis.now) object.now (name_of field.now) }
{
    let name = field.node.name.node.as_str();
    is_only_introspection(basis.env.introspection_mode) || has_field(basis, object, name)
}

/// Whether an object has a field of a name, that of its own name among them.
fn has_field(basis: &Basis<'_>, object: &str, name: &str) -> bool
    ensures { result ≡ (is_typename name.now
        || is_some (field_in (schema_of basis.now) object.now name.now)) }
{
    name == "__typename" || is_declared(basis, object, name)
}

/// Whether its type declares one: the query root has that of entities too, where they are on.
fn is_declared(basis: &Basis<'_>, object: &str, name: &str) -> bool
    ensures { result ≡ is_some (field_in (schema_of basis.now) object.now name.now) }
{
    match basis.entities {
        None => is_in_table(basis.types, object, name),
        Some(_) => {
            if name == "_entities" && object == basis.query {
                true
            } else {
                is_in_table(basis.types, object, name)
            }
        }
    }
}

/// Whether it does in the table of types.
fn is_in_table(types: &Types, object: &str, name: &str) -> bool
    ensures { result ≡ is_some (field_of_table (types_of types.now) object.now name.now) }
{
    match types.field(object, name) {
        None => false,
        Some(_) => true,
    }
}
