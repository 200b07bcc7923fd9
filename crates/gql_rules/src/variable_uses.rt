//! The variables in arguments: whether an operation defines them, and whether they fit where they
//! stand.
ghost use Rattle.std.specs.Prelude.{◌≡◌, ◌++◌, OnOk};
ghost use Rattle.std.specs.Option.{option_copied, option_map};
ghost use Rattle.gql_schema.specs.Table.{types_of};
ghost use Rattle.gql_request.specs.Defined.{first_definition};
ghost use Rattle.gql_fields.specs.FieldTypes.{known_field};
ghost use Rattle.gql_fields.specs.Walk.{field_place, terms_in};
ghost use Rattle.gql_fields.specs.UsePlaceViews.{place_behind, shown};
ghost use Rattle.gql_rules.specs.ValuePlace.{value_place_behind};
ghost use Rattle.gql_rules.specs.VariableUses.{declared_place as place_declared};
ghost use Rattle.gql_rules.specs.VariableUses.{items_place as place_of_items};
ghost use Rattle.gql_rules.specs.VariableUses.{member_place as place_of_member};
ghost use Rattle.gql_rules.specs.VariableUses.{told_in_argument, told_in_arguments, told_in_items};
ghost use Rattle.gql_rules.specs.VariableUses.{told_in_members, told_in_value, told_of_variable};
ghost use Rattle.gql_rules.specs.VariableUses.{told_in_field, uses_told, uses_told_at};

use crate::usage_allowed::fits_place;
use crate::value_place::ValuePlace;
use crate::variable_texts::{misplaced_variable, undefined_variable};
use gql_base::{Items, Made, Name, Pairs};
use gql_doc::{Argument, Directive, DocValue, Field, Positioned};
use gql_fields::{Against, Breach, UsePlace, is_condition};
use gql_request::Defined;
use gql_schema::{ByName, InputValue, SchemaType, Types, type_of_items};

/// An argument, and by what the variables in it are checked: the definitions of an operation, and
/// what the document is checked against.
#[derive(Clone, Copy)]
struct InArgument<'a> {
    argument: &'a Argument,
    defined: &'a Defined<'a>,
    against: &'a Against<'a>,
}

/// Tells of the variables at some places.
pub fn tell_uses(
    places: &[UsePlace<'_>],
    defined: &Defined<'_>,
    against: &Against<'_>,
    found: &mut Items<Breach>,
) -> Made<()>
    ensures { OnOk result (found.new ≡ found.old
        ++ uses_told against.now.built.now (terms_in against.now) defined.now
        (shown places.now)) }
{
    for place in places {
        tell_uses_at(place, defined, against, found)?;
    }
    Ok(())
}

fn tell_uses_at(
    place: &UsePlace<'_>,
    defined: &Defined<'_>,
    against: &Against<'_>,
    found: &mut Items<Breach>,
) -> Made<()>
    ensures { OnOk result (found.new ≡ found.old
        ++ uses_told_at against.now.built.now (terms_in against.now) defined.now
        (place_behind place.now)) }
{
    match place {
        UsePlace::Field(ty, field) => tell_in_field(field, ty, defined, against, found),
        UsePlace::Directive(directive) => {
            if is_condition(&directive.node) {
                let arguments = directive.node.arguments.as_slice();
                tell_in_arguments(arguments, &against.built.condition, defined, against, found)
            } else {
                Ok(())
            }
        }
        UsePlace::Spread(_) => Ok(()),
    }
}

/// Tells of the variables in the arguments of a known field.
fn tell_in_field(
    field: &Positioned<Field>,
    ty: &SchemaType,
    defined: &Defined<'_>,
    against: &Against<'_>,
    found: &mut Items<Breach>,
) -> Made<()>
    ensures { OnOk result (found.new ≡ found.old
        ++ told_in_field (terms_in against.now).table defined.now
        (field_place ty.now field.now).arguments
        (known_field against.now.built.now (terms_in against.now) ty.now
        (field_place ty.now field.now).name)) }
{
    match against.site.field_type(ty, field.node.name.node.as_str()) {
        None => Ok(()),
        Some(known) => {
            let arguments = field.node.arguments.as_slice();
            let declared = known.arguments(against.built);
            tell_in_arguments(arguments, declared, defined, against, found)
        }
    }
}

fn tell_in_arguments(
    arguments: &[Argument],
    declared: &ByName<InputValue>,
    defined: &Defined<'_>,
    against: &Against<'_>,
    found: &mut Items<Breach>,
) -> Made<()>
    ensures { OnOk result (found.new ≡ found.old
        ++ told_in_arguments (terms_in against.now).table defined.now declared.now
        arguments.now) }
{
    for argument in arguments {
        tell_in_argument(argument, declared, defined, against, found)?;
    }
    Ok(())
}

fn tell_in_argument(
    argument: &Argument,
    declared: &ByName<InputValue>,
    defined: &Defined<'_>,
    against: &Against<'_>,
    found: &mut Items<Breach>,
) -> Made<()>
    ensures { OnOk result (found.new ≡ found.old
        ++ told_in_argument (terms_in against.now).table defined.now declared.now
        argument.now) }
{
    let place = declared_place(declared.get(argument.name.node.as_str()));
    let inside = InArgument {
        argument,
        defined,
        against,
    };
    tell_in_value(&argument.value.node, place, &inside, found)
}

/// Tells of the variables in a value of an argument.
#[cycle(uses)]
fn tell_in_value(
    value: &DocValue,
    place: Option<ValuePlace<'_>>,
    inside: &InArgument<'_>,
    found: &mut Items<Breach>,
) -> Made<()>
    ensures { OnOk result (found.new ≡ found.old
        ++ told_in_value (terms_in inside.now.against.now).table inside.now.defined.now
        inside.now.argument.now value.now (option_map value_place_behind place.entry)) }
{
    match value {
        DocValue::Variable(name) => tell_variable(name, place, inside, found),
        DocValue::List(items) => {
            tell_in_items(items.as_slice(), items_place(place), inside, found)
        }
        DocValue::Object(members) => tell_in_members(members, place, inside, found),
        DocValue::Null
        | DocValue::Boolean(_)
        | DocValue::Number(_)
        | DocValue::String(_)
        | DocValue::Enum(_) => Ok(()),
    }
}

#[cycle(uses)]
fn tell_in_items(
    items: &[DocValue],
    place: Option<ValuePlace<'_>>,
    inside: &InArgument<'_>,
    found: &mut Items<Breach>,
) -> Made<()>
    ensures { OnOk result (found.new ≡ found.old
        ++ told_in_items (terms_in inside.now.against.now).table inside.now.defined.now
        inside.now.argument.now items.now (option_map value_place_behind place.entry)) }
{
    for value in items {
        tell_in_value(value, place, inside, found)?;
    }
    Ok(())
}

#[cycle(uses)]
fn tell_in_members(
    members: &Pairs<DocValue>,
    place: Option<ValuePlace<'_>>,
    inside: &InArgument<'_>,
    found: &mut Items<Breach>,
) -> Made<()>
    ensures { OnOk result (found.new ≡ found.old
        ++ told_in_members (terms_in inside.now.against.now).table inside.now.defined.now
        inside.now.argument.now members.now (option_map value_place_behind place.entry)) }
{
    for at in 0..members.len() {
        let (name, value) = members.at(at);
        let inner = member_place(name, place, inside.against.site.types);
        tell_in_value(value, inner, inside, found)?;
    }
    Ok(())
}

/// Tells of a variable that isn't defined, or doesn't fit.
fn tell_variable(
    name: &Name,
    place: Option<ValuePlace<'_>>,
    inside: &InArgument<'_>,
    found: &mut Items<Breach>,
) -> Made<()>
    ensures { OnOk result (found.new ≡ found.old
        ++ told_of_variable (terms_in inside.now.against.now).table inside.now.argument.now
        name.now (first_definition name.now inside.now.defined.now)
        (option_map value_place_behind place.entry)) }
{
    let InArgument {
        argument,
        defined,
        against,
    } = *inside;
    match defined.get(name.as_str()) {
        None => found.push(undefined_variable(against.alloc, argument, name.as_str())?),
        Some(definition) => {
            if fits_place(&definition.node, place, against.site.types) {
                Ok(())
            } else {
                found.push(misplaced_variable(against.alloc, argument, name.as_str())?)
            }
        }
    }
}

fn declared_place(declared: Option<&InputValue>) -> Option<ValuePlace<'_>>
    ensures { option_map value_place_behind result
        ≡ option_map place_declared (option_copied declared.entry) }
{
    match declared {
        None => None,
        Some(input) => Some(ValuePlace {
            ty: input.ty(),
            has_default: input.default().is_some(),
        }),
    }
}

/// The place of the items of a list literal.
fn items_place(place: Option<ValuePlace<'_>>) -> Option<ValuePlace<'_>>
    ensures { option_map value_place_behind result
        ≡ place_of_items (option_map value_place_behind place.entry) }
{
    match place {
        None => None,
        Some(place) => match type_of_items(place.ty) {
            None => None,
            Some(ty) => Some(ValuePlace {
                ty,
                has_default: false,
            }),
        },
    }
}

/// The place of a member of an object literal.
fn member_place<'a>(
    name: &str,
    place: Option<ValuePlace<'a>>,
    types: &'a Types,
) -> Option<ValuePlace<'a>>
    ensures { option_map value_place_behind result
        ≡ place_of_member (types_of types.now) name.now
        (option_map value_place_behind place.entry) }
{
    match place {
        None => None,
        Some(place) => match types.get(place.ty.type_name()) {
            Some(SchemaType::InputObject(input)) => declared_place(input.get(name)),
            _ => None,
        },
    }
}
