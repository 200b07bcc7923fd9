//! The arguments of fields and directives.
ghost use Rattle.std.specs.Prelude.{◌≡◌, ◌++◌, [], ◌∷◌, ℕ, List, map, IfOk, OnOk};
ghost use Rattle.std.specs.List.{flat_map};
ghost use Rattle.gql_base.specs.Pairs.{under};
ghost use Rattle.gql_schema.specs.NameSet.{is_among, with_name};
ghost use Rattle.gql_fields.specs.Walk.{terms_in};
ghost use Rattle.gql_fields.specs.ArgumentViews.{bearing_behind, owner_behind, table_behind};
ghost use Rattle.gql_fields.specs.Arguments.{argument_name, is_optional, misfit as misfit_of};
ghost use Rattle.gql_fields.specs.Arguments.{told_of_argument, told_of_arguments};
ghost use Rattle.gql_fields.specs.Arguments.{told_of_declared, told_of_doubled, told_of_given};
ghost use Rattle.gql_fields.specs.Arguments.{told_of_missing, told_of_value};
ghost use Rattle.gql_fields.specs.Arguments.{unknown_argument as unknown_argument_of};
ghost use Rattle.gql_fields.specs.Literals.{reason_text};
ghost use Rattle.gql_fields.specs.GivenNames.{AreNames};

use crate::against::Against;
use crate::argument_texts::{
    doubled_argument, expected_type, invalid_value, missing_argument, unknown_argument,
};
use crate::breach::Breach;
use crate::literals::{is_other_than_one, literal_fits, wants_one};
use gql_base::{Copied, Items, Made, Pos, Text, TypeRef};
use gql_doc::{Argument, DocValue};
use gql_schema::{ByName, InputValue, NameSet};
use std::alloc::Global;

/// What has arguments: a field, by its name and that of the type that it stands on, or a directive.
#[derive(Clone, Copy)]
pub enum Owner<'a> {
    Field(&'a str, &'a str),
    Directive(&'a str),
}

/// A place with arguments: what has them, where it stands, which it declares, and what they are
/// checked against.
#[derive(Clone, Copy)]
pub struct Bearing<'a> {
    pub owner: Owner<'a>,
    pub pos: Pos,
    pub declared: &'a ByName<InputValue>,
    pub against: &'a Against<'a>,
}

/// Tells of the arguments that are given, and of those that are wanting.
pub fn tell_arguments(
    bearing: &Bearing<'_>,
    arguments: &[Argument],
    found: &mut Items<Breach>,
) -> Made<()>
    ensures { OnOk result (found.new ≡ found.old
        ++ told_of_arguments (table_behind bearing.now) (bearing_behind bearing.now)
        arguments.now) }
{
    let mut given = NameSet::new(bearing.against.alloc);
    tell_given(bearing, arguments, &mut given, found)?;
    tell_missing(bearing, &given, found)
}

fn tell_given(
    bearing: &Bearing<'_>,
    arguments: &[Argument],
    given: &mut NameSet,
    found: &mut Items<Breach>,
) -> Made<()>
    requires { given.old ≡ [] }
    ensures found { OnOk result (found.new ≡ found.old
        ++ told_of_given (table_behind bearing.now) (bearing_behind bearing.now) arguments.now) }
    ensures given { OnOk result (AreNames (map argument_name arguments.now) given.new) }
{
    for argument in arguments {
        tell_argument(bearing, argument, given, found)?;
    }
    Ok(())
}

fn tell_argument(
    bearing: &Bearing<'_>,
    argument: &Argument,
    given: &mut NameSet,
    found: &mut Items<Breach>,
) -> Made<()>
    ensures found { OnOk result (found.new ≡ found.old
        ++ told_of_argument (table_behind bearing.now) (bearing_behind bearing.now) given.old
        argument.now) }
    ensures given { OnOk result (given.new ≡ with_name given.old (argument_name argument.now)) }
{
    tell_doubled(bearing.against.alloc, argument, given, found)?;
    tell_declared(bearing, argument, found)
}

/// Tells of an argument whose name is given before, and takes its name among those that are given.
fn tell_doubled(
    alloc: Global,
    argument: &Argument,
    given: &mut NameSet,
    found: &mut Items<Breach>,
) -> Made<()>
    ensures found { OnOk result (found.new ≡ found.old ++ told_of_doubled given.old argument.now) }
    ensures given { OnOk result (given.new ≡ with_name given.old (argument_name argument.now)) }
{
    let name = argument.name.node.as_str();
    if given.has(name) {
        found.push(doubled_argument(alloc, argument.name.pos, name)?)
    } else {
        given.add_fresh(argument.name.node.try_clone(alloc)?)
    }
}

/// Tells of an argument that isn't declared, or whose literal doesn't fit.
fn tell_declared(bearing: &Bearing<'_>, argument: &Argument, found: &mut Items<Breach>) -> Made<()>
    ensures { OnOk result (found.new ≡ found.old ++ told_of_declared (table_behind bearing.now)
        (owner_behind bearing.now.owner) argument.now
        (under (argument_name argument.now) bearing.now.declared.now)) }
{
    let name = argument.name.node.as_str();
    match bearing.declared.get(name) {
        None => {
            let alloc = bearing.against.alloc;
            found.push(unknown_argument(alloc, &bearing.owner, argument.name.pos, name)?)
        }
        Some(input) => tell_value(argument, input.ty(), bearing.against, found),
    }
}

/// Tells of a literal that doesn't fit.
fn tell_value(
    argument: &Argument,
    ty: &TypeRef,
    against: &Against<'_>,
    found: &mut Items<Breach>,
) -> Made<()>
    ensures { OnOk result (found.new ≡ found.old
        ++ told_of_value (terms_in against.now).table argument.now ty.now) }
{
    if literal_fits(&argument.value.node, ty, against.site.types) {
        Ok(())
    } else {
        found.push(misfit(argument, ty, against)?)
    }
}

fn misfit(argument: &Argument, ty: &TypeRef, against: &Against<'_>) -> Made<Breach>
    ensures { IfOk result
        (λ made. made ≡ misfit_of (terms_in against.now).table argument.now ty.now) }
{
    let reason = reason(&argument.value.node, ty, against)?;
    invalid_value(
        against.alloc,
        argument.name.pos,
        argument.name.node.as_str(),
        reason.as_str(),
    )
}

/// Why a value doesn't fit a type.
fn reason(value: &DocValue, ty: &TypeRef, against: &Against<'_>) -> Made<Text>
    ensures { IfOk result
        (λ text. text ≡ reason_text (terms_in against.now).table ty.now value.now) }
{
    if wants_one(ty, against.site.types) && is_other_than_one(value) {
        Text::new(
            against.alloc,
            "Oneof input objects requires have exactly one field",
        )
    } else {
        let text = ty.text(against.alloc)?;
        expected_type(against.alloc, text.as_str())
    }
}

/// Tells of each argument that is wanting.
fn tell_missing(bearing: &Bearing<'_>, given: &NameSet, found: &mut Items<Breach>) -> Made<()>
    ensures { OnOk result (found.new ≡ found.old
        ++ flat_map (told_of_missing (bearing_behind bearing.now) given.now)
        bearing.now.declared.now) }
{
    for place in 0..bearing.declared.len() {
        let (name, input) = bearing.declared.at(place);
        tell_if_missing(bearing, name, input, given, found)?;
    }
    Ok(())
}

fn tell_if_missing(
    bearing: &Bearing<'_>,
    name: &str,
    input: &InputValue,
    given: &NameSet,
    found: &mut Items<Breach>,
) -> Made<()>
    ensures { OnOk result (found.new ≡ found.old
        ++ told_of_missing (bearing_behind bearing.now) given.now (name.now, input.now)) }
{
    if may_be_left_out(input) || given.has(name) {
        Ok(())
    } else {
        let alloc = bearing.against.alloc;
        found.push(missing_argument(alloc, &bearing.owner, bearing.pos, name)?)
    }
}

fn may_be_left_out(input: &InputValue) -> bool
    ensures { result ≡ is_optional input.now }
{
    input.ty().is_nullable() || input.default().is_some()
}
