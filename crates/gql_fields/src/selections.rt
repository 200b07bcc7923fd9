//! What is told of a field, a spread and a directive, whatever stands under.
ghost use Rattle.std.specs.Prelude.{◌≡◌, ◌++◌, Bool, OnOk, Some};
ghost use Rattle.std.specs.Option.{option_map};
ghost use Rattle.gql_base.specs.Pairs.{under};
ghost use Rattle.gql_base.specs.TypeRef.{innermost};
ghost use Rattle.gql_fields.specs.Breaches.{directive_bearing, field_bearing, is_leaf_named};
ghost use Rattle.gql_fields.specs.Breaches.{told_of_directive, told_of_known};
ghost use Rattle.gql_fields.specs.Arguments.{told_of_arguments};
ghost use Rattle.gql_fields.specs.Breaches.{told_of_set, told_of_spread};
ghost use Rattle.gql_fields.specs.FieldTypeViews.{known_behind, type_behind};
ghost use Rattle.gql_fields.specs.Places.{directive_places};
ghost use Rattle.gql_fields.specs.Walk.{field_place, tells, tells_field, terms_in};

use crate::against::Against;
use crate::argument_texts::unknown_directive;
use crate::arguments::{Bearing, Owner, tell_arguments};
use crate::breach::Breach;
use crate::breach_texts::{no_set, set_on_leaf, unknown_field, unknown_fragment};
use crate::field_type::{FieldType, is_leaf_type};
use crate::skip_include::is_condition;
use gql_base::{Items, Made};
use gql_doc::{Directive, Field, FragmentSpread, Positioned};
use gql_schema::SchemaType;

/// Tells of a field that its type hasn't, or of the set and the arguments of one that is known.
pub fn tell_field(
    field: &Positioned<Field>,
    ty: &SchemaType,
    known: &Option<FieldType<'_>>,
    against: &Against<'_>,
    found: &mut Items<Breach>,
) -> Made<()>
    ensures { OnOk result (found.new ≡ found.old ++ tells_field against.now ty.now field.now
        (option_map (known_behind against.now.built.now) known.now)) }
{
    match known {
        None => {
            let name = field.node.name.node.as_str();
            found.push(unknown_field(against.alloc, field.pos, name, ty.name())?)
        }
        Some(known) => tell_known(field, ty, known, against, found),
    }
}

fn tell_known(
    field: &Positioned<Field>,
    ty: &SchemaType,
    known: &FieldType<'_>,
    against: &Against<'_>,
    found: &mut Items<Breach>,
) -> Made<()>
    ensures { OnOk result (found.new ≡ found.old ++ told_of_known (terms_in against.now)
        (field_place ty.now field.now) (known_behind against.now.built.now known.now)) }
{
    tell_set(field, ty, known, against, found)?;
    tell_field_arguments(field, ty, known, against, found)
}

fn tell_field_arguments(
    field: &Positioned<Field>,
    ty: &SchemaType,
    known: &FieldType<'_>,
    against: &Against<'_>,
    found: &mut Items<Breach>,
) -> Made<()>
    ensures { OnOk result (found.new ≡ found.old
        ++ told_of_arguments (terms_in against.now).table
        (field_bearing (field_place ty.now field.now)
        (known_behind against.now.built.now known.now))
        (field_place ty.now field.now).arguments) }
{
    let bearing = Bearing {
        owner: Owner::Field(field.node.name.node.as_str(), ty.name()),
        pos: field.pos,
        declared: known.arguments(against.built),
        against,
    };
    let arguments = field.node.arguments.as_slice();
    tell_arguments(&bearing, arguments, found)
}

/// Tells of a field whose type wants no set, or wants one.
fn tell_set(
    field: &Positioned<Field>,
    ty: &SchemaType,
    known: &FieldType<'_>,
    against: &Against<'_>,
    found: &mut Items<Breach>,
) -> Made<()>
    ensures { OnOk result (found.new ≡ found.old
        ++ told_of_set (field_place ty.now field.now) (type_behind known.now)
        (is_leaf_named (terms_in against.now) (innermost (type_behind known.now)))
        (field_place ty.now field.now).has_set) }
{
    let name = field.node.name.node.as_str();
    let is_leaf = is_leaf_name(against, known.inner_name());
    let has_set = !field.node.selection_set.node.items.is_empty();
    if is_leaf && has_set {
        let text = known.text(against.alloc)?;
        found.push(set_on_leaf(against.alloc, field.pos, name, text.as_str())?)
    } else if !is_leaf && !has_set {
        let text = known.text(against.alloc)?;
        found.push(no_set(against.alloc, field.pos, name, text.as_str())?)
    } else {
        Ok(())
    }
}

/// True exactly where the name is that of a type whose fields have no sets.
fn is_leaf_name(against: &Against<'_>, name: &str) -> bool
    ensures { result ≡ is_leaf_named (terms_in against.now) name.now }
{
    match against.site.types.get(name) {
        None => false,
        Some(ty) => is_leaf_type(ty),
    }
}

/// Tells of some directives, which stand on a selection or on a definition.
pub fn tell_directives(
    directives: &[Positioned<Directive>],
    selects: bool,
    against: &Against<'_>,
    found: &mut Items<Breach>,
) -> Made<()>
    ensures { OnOk result (found.new ≡ found.old
        ++ tells against.now (directive_places selects directives.now)) }
{
    for directive in directives {
        tell_directive(directive, selects, against, found)?;
    }
    Ok(())
}

/// Tells of a directive that isn't known where it stands, or of the arguments of another.
fn tell_directive(
    directive: &Positioned<Directive>,
    selects: bool,
    against: &Against<'_>,
    found: &mut Items<Breach>,
) -> Made<()>
    ensures { OnOk result (found.new ≡ found.old ++ told_of_directive against.now.built.now
        (terms_in against.now) selects directive.now) }
{
    if selects && is_condition(&directive.node) {
        tell_directive_arguments(directive, against, found)
    } else {
        let name = directive.node.name.node.as_str();
        found.push(unknown_directive(against.alloc, directive.pos, name)?)
    }
}

fn tell_directive_arguments(
    directive: &Positioned<Directive>,
    against: &Against<'_>,
    found: &mut Items<Breach>,
) -> Made<()>
    ensures { OnOk result (found.new ≡ found.old
        ++ told_of_arguments (terms_in against.now).table
        (directive_bearing against.now.built.now directive.now) directive.now.node.arguments) }
{
    let bearing = Bearing {
        owner: Owner::Directive(directive.node.name.node.as_str()),
        pos: directive.pos,
        declared: &against.built.condition,
        against,
    };
    let arguments = directive.node.arguments.as_slice();
    tell_arguments(&bearing, arguments, found)
}

/// Tells of a spread of a fragment that isn't there.
pub fn tell_spread(
    spread: &Positioned<FragmentSpread>,
    against: &Against<'_>,
    found: &mut Items<Breach>,
) -> Made<()>
    ensures { OnOk result (found.new ≡ found.old
        ++ told_of_spread spread.now.pos spread.now.node.fragment_name.node
        (under spread.now.node.fragment_name.node against.now.fragments.now)) }
{
    let name = spread.node.fragment_name.node.as_str();
    match against.fragments.get(name) {
        Some(_) => Ok(()),
        None => found.push(unknown_fragment(against.alloc, spread.pos, name)?),
    }
}
