//! The places of a document that matter to the uses of variables, listed one by one.
ghost use Rattle.std.specs.Prelude.{◌≡◌, ◌++◌, ◌∷◌, [], OnOk, true};
ghost use Rattle.gql_fields.specs.Places.{OnDirective, OnField, directive_places};
ghost use Rattle.gql_fields.specs.UsePlaceViews.{place_behind, shown};
ghost use Rattle.gql_fields.specs.UsePlaces.{kept, kept_at};
ghost use Rattle.gql_fields.specs.Walk.{field_place, spread_place};

use crate::constants::are_constant;
use crate::skip_include::is_condition;
use crate::use_place::UsePlace;
use gql_base::{Items, Made};
use gql_doc::{Directive, Field, FragmentSpread, Positioned};
use gql_schema::SchemaType;

/// Lists a spread.
pub fn list_spread<'a>(
    spread: &'a Positioned<FragmentSpread>,
    places: &mut Items<UsePlace<'a>>,
) -> Made<()>
    ensures { OnOk result (shown places.new
        ≡ shown places.old ++ kept_at (spread_place spread.now)) }
{
    add_place(UsePlace::Spread(spread), places)
}

/// Lists directives that stand on a selection.
pub fn list_directives<'a>(
    directives: &'a [Positioned<Directive>],
    places: &mut Items<UsePlace<'a>>,
) -> Made<()>
    ensures { OnOk result (shown places.new
        ≡ shown places.old ++ kept (directive_places true directives.now)) }
{
    for directive in directives {
        add_directive(directive, places)?;
    }
    Ok(())
}

fn add_directive<'a>(
    directive: &'a Positioned<Directive>,
    places: &mut Items<UsePlace<'a>>,
) -> Made<()>
    ensures { OnOk result (shown places.new
        ≡ shown places.old ++ kept_at (OnDirective true directive.now)) }
{
    if is_condition(&directive.node) && !are_constant(directive.node.arguments.as_slice()) {
        add_place(UsePlace::Directive(directive), places)
    } else {
        Ok(())
    }
}

/// Lists a field with a variable in its arguments.
pub fn list_field<'a>(
    field: &'a Positioned<Field>,
    ty: &'a SchemaType,
    places: &mut Items<UsePlace<'a>>,
) -> Made<()>
    ensures { OnOk result (shown places.new
        ≡ shown places.old ++ kept_at (OnField (field_place ty.now field.now))) }
{
    if are_constant(field.node.arguments.as_slice()) {
        Ok(())
    } else {
        add_place(UsePlace::Field(ty, field), places)
    }
}

#[tactic(auto, using(crate::proofs::KeptLemmas::shown_more))]
fn add_place<'a>(place: UsePlace<'a>, places: &mut Items<UsePlace<'a>>) -> Made<()>
    ensures { OnOk result (shown places.new ≡ shown places.old ++ place_behind place.entry ∷ []) }
{
    places.push(place)
}
