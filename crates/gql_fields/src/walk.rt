//! The walk over the places of a document: it tells the rules that are broken at each, in the order
//! of the document, and lists those that matter to the uses of variables. Spreads aren't entered.
ghost use Rattle.std.specs.Prelude.{◌≡◌, ◌++◌, OnOk, true};
ghost use Rattle.std.specs.List.{flat_map};
ghost use Rattle.std.specs.Option.{option_map};
ghost use Rattle.gql_fields.specs.Breaches.{is_composite_named, told_of_condition};
ghost use Rattle.gql_fields.specs.FieldTypeViews.{type_behind};
ghost use Rattle.gql_fields.specs.Places.{beneath_field, directive_places, field_places};
ghost use Rattle.gql_fields.specs.Places.{inline_places, on_named};
ghost use Rattle.gql_fields.specs.Places.{selection_places, set_places, under_condition};
ghost use Rattle.gql_fields.specs.UsePlaceViews.{shown};
ghost use Rattle.gql_fields.specs.UsePlaces.{kept};
ghost use Rattle.gql_fields.specs.Walk.{spread_places, tells, terms_in};
ghost use Rattle.gql_doc.specs.declared.document.InlineFragment.{out-InlineFragment};

use crate::against::Against;
use crate::breach::Breach;
use crate::breach_texts::unknown_condition;
use crate::field_type::{FieldType, is_composite_type};
use crate::listing::{list_directives, list_field, list_spread};
use crate::selections::{tell_directives, tell_field, tell_spread};
use crate::use_place::UsePlace;
use gql_base::{Items, Made, Name};
use gql_doc::{
    Directive, Field, FragmentSpread, InlineFragment, Positioned, Selection, SelectionSet,
};
use gql_schema::SchemaType;

/// Walks through a set on a type.
#[cycle(walk)]
pub fn walk_set<'a>(
    set: &'a SelectionSet,
    ty: &'a SchemaType,
    against: &Against<'a>,
    found: &mut Items<Breach>,
    places: &mut Items<UsePlace<'a>>,
) -> Made<()>
    ensures found { OnOk result (found.new ≡ found.old
        ++ tells against.now (set_places (terms_in against.now) set.now ty.now)) }
    ensures places { OnOk result (shown places.new ≡ shown places.old
        ++ kept (set_places (terms_in against.now) set.now ty.now)) }
{
    walk_selections(set.items.as_slice(), ty, against, found, places)
}

#[cycle(walk)]
fn walk_selections<'a>(
    selections: &'a [Positioned<Selection>],
    ty: &'a SchemaType,
    against: &Against<'a>,
    found: &mut Items<Breach>,
    places: &mut Items<UsePlace<'a>>,
) -> Made<()>
    ensures found { OnOk result (found.new ≡ found.old ++ tells against.now
        (flat_map (λ selection. selection_places (terms_in against.now) selection.node ty.now)
        selections.now)) }
    ensures places { OnOk result (shown places.new ≡ shown places.old ++ kept
        (flat_map (λ selection. selection_places (terms_in against.now) selection.node ty.now)
        selections.now)) }
{
    for selection in selections {
        walk_selection(&selection.node, ty, against, found, places)?;
    }
    Ok(())
}

#[cycle(walk)]
fn walk_selection<'a>(
    selection: &'a Selection,
    ty: &'a SchemaType,
    against: &Against<'a>,
    found: &mut Items<Breach>,
    places: &mut Items<UsePlace<'a>>,
) -> Made<()>
    ensures found { OnOk result (found.new ≡ found.old
        ++ tells against.now (selection_places (terms_in against.now) selection.now ty.now)) }
    ensures places { OnOk result (shown places.new ≡ shown places.old
        ++ kept (selection_places (terms_in against.now) selection.now ty.now)) }
{
    match selection {
        Selection::Field(field) => walk_field(field, ty, against, found, places),
        Selection::FragmentSpread(spread) => walk_spread(spread, against, found, places),
        Selection::InlineFragment(inline) => walk_inline(&inline.node, ty, against, found, places),
    }
}

#[cycle(walk)]
#[tactic(auto, using(crate::proofs::ToldLemmas::told_both, crate::proofs::KeptLemmas::kept_both))]
fn walk_field<'a>(
    field: &'a Positioned<Field>,
    ty: &'a SchemaType,
    against: &Against<'a>,
    found: &mut Items<Breach>,
    places: &mut Items<UsePlace<'a>>,
) -> Made<()>
    ensures found { OnOk result (found.new ≡ found.old ++ tells against.now
        (field_places (terms_in against.now) field.now.node field.now.pos ty.now)) }
    ensures places { OnOk result (shown places.new ≡ shown places.old ++ kept
        (field_places (terms_in against.now) field.now.node field.now.pos ty.now)) }
{
    let known = against.site.field_type(ty, field.node.name.node.as_str());
    tell_field(field, ty, &known, against, found)?;
    list_field(field, ty, places)?;
    walk_directives(field.node.directives.as_slice(), against, found, places)?;
    walk_beneath(
        &field.node.selection_set.node,
        &known,
        against,
        found,
        places,
    )
}

/// Walks through the set of a field that is known.
#[cycle(walk)]
fn walk_beneath<'a>(
    set: &'a SelectionSet,
    known: &Option<FieldType<'_>>,
    against: &Against<'a>,
    found: &mut Items<Breach>,
    places: &mut Items<UsePlace<'a>>,
) -> Made<()>
    ensures found { OnOk result (found.new ≡ found.old ++ tells against.now
        (beneath_field (terms_in against.now) (option_map type_behind known.now)
        (set_places (terms_in against.now) set.now))) }
    ensures places { OnOk result (shown places.new ≡ shown places.old ++ kept
        (beneath_field (terms_in against.now) (option_map type_behind known.now)
        (set_places (terms_in against.now) set.now))) }
{
    match known {
        None => Ok(()),
        Some(known) => walk_named(set, known.inner_name(), against, found, places),
    }
}

#[cycle(walk)]
#[tactic(auto, using(crate::proofs::ToldLemmas::told_both, crate::proofs::KeptLemmas::kept_both))]
fn walk_inline<'a>(
    inline: &'a InlineFragment,
    ty: &'a SchemaType,
    against: &Against<'a>,
    found: &mut Items<Breach>,
    places: &mut Items<UsePlace<'a>>,
) -> Made<()>
    ensures found { OnOk result (found.new ≡ found.old
        ++ tells against.now (inline_places (terms_in against.now) inline.now ty.now)) }
    ensures places { OnOk result (shown places.new ≡ shown places.old
        ++ kept (inline_places (terms_in against.now) inline.now ty.now)) }
{
    walk_directives(inline.directives.as_slice(), against, found, places)?;
    walk_under(inline, ty, against, found, places)
}

/// Walks through the set of a fragment in place, on the type around it or on that of its condition.
#[cycle(walk)]
fn walk_under<'a>(
    inline: &'a InlineFragment,
    ty: &'a SchemaType,
    against: &Against<'a>,
    found: &mut Items<Breach>,
    places: &mut Items<UsePlace<'a>>,
) -> Made<()>
    ensures found { OnOk result (found.new ≡ found.old ++ tells against.now
        (under_condition (terms_in against.now) (out-InlineFragment inline.now).type_condition
        (set_places (terms_in against.now) (out-InlineFragment inline.now).selection_set.node)
        ty.now)) }
    ensures places { OnOk result (shown places.new ≡ shown places.old ++ kept
        (under_condition (terms_in against.now) (out-InlineFragment inline.now).type_condition
        (set_places (terms_in against.now) (out-InlineFragment inline.now).selection_set.node)
        ty.now)) }
{
    let set = &inline.selection_set.node;
    match &inline.type_condition {
        None => walk_set(set, ty, against, found, places),
        Some(condition) => {
            tell_condition(condition, against, found)?;
            walk_named(set, condition.node.as_str(), against, found, places)
        }
    }
}

/// Walks through a set on the type of a name, where it is composite.
#[cycle(walk)]
pub fn walk_named<'a>(
    set: &'a SelectionSet,
    name: &str,
    against: &Against<'a>,
    found: &mut Items<Breach>,
    places: &mut Items<UsePlace<'a>>,
) -> Made<()>
    ensures found { OnOk result (found.new ≡ found.old ++ tells against.now
        (on_named (terms_in against.now) name.now (set_places (terms_in against.now) set.now))) }
    ensures places { OnOk result (shown places.new ≡ shown places.old ++ kept
        (on_named (terms_in against.now) name.now (set_places (terms_in against.now) set.now))) }
{
    match against.site.types.get(name) {
        None => Ok(()),
        Some(ty) => {
            if is_composite_type(ty) {
                walk_set(set, ty, against, found, places)
            } else {
                Ok(())
            }
        }
    }
}

/// Goes through the directives of a selection.
fn walk_directives<'a>(
    directives: &'a [Positioned<Directive>],
    against: &Against<'_>,
    found: &mut Items<Breach>,
    places: &mut Items<UsePlace<'a>>,
) -> Made<()>
    ensures found { OnOk result (found.new ≡ found.old
        ++ tells against.now (directive_places true directives.now)) }
    ensures places { OnOk result (shown places.new ≡ shown places.old
        ++ kept (directive_places true directives.now)) }
{
    tell_directives(directives, true, against, found)?;
    list_directives(directives, places)
}

/// Goes through a spread and its directives.
#[tactic(auto, using(crate::proofs::ToldLemmas::told_both, crate::proofs::KeptLemmas::kept_both))]
fn walk_spread<'a>(
    spread: &'a Positioned<FragmentSpread>,
    against: &Against<'_>,
    found: &mut Items<Breach>,
    places: &mut Items<UsePlace<'a>>,
) -> Made<()>
    ensures found { OnOk result (found.new ≡ found.old
        ++ tells against.now (spread_places spread.now)) }
    ensures places { OnOk result (shown places.new ≡ shown places.old
        ++ kept (spread_places spread.now)) }
{
    tell_spread(spread, against, found)?;
    list_spread(spread, places)?;
    walk_directives(spread.node.directives.as_slice(), against, found, places)
}

/// Tells of a condition on no composite type.
pub fn tell_condition(
    condition: &Positioned<Name>,
    against: &Against<'_>,
    found: &mut Items<Breach>,
) -> Made<()>
    ensures { OnOk result (found.new ≡ found.old
        ++ told_of_condition (terms_in against.now) condition.now.pos condition.now.node) }
{
    let name = condition.node.as_str();
    if is_composite_name(against, name) {
        Ok(())
    } else {
        found.push(unknown_condition(against.alloc, condition.pos, name)?)
    }
}

/// True exactly where the name is that of an object, an interface or a union.
fn is_composite_name(against: &Against<'_>, name: &str) -> bool
    ensures { result ≡ is_composite_named (terms_in against.now) name.now }
{
    match against.site.types.get(name) {
        None => false,
        Some(ty) => is_composite_type(ty),
    }
}
