//! What `@skip` and `@include` leave of a set (section 6.3.2). What stays is moved and not copied; a
//! set in which nothing has a directive stays where it is.
ghost use Rattle.std.specs.Prelude.{◌≡◌, ◌++◌, IfOk, OnOk};
ghost use Rattle.std.specs.Option.{option_to_list};
ghost use Rattle.gql_select.specs.Constants.{variable_value};
ghost use Rattle.gql_select.specs.Kept.{kept, kept_set};
ghost use Rattle.gql_admit.specs.KnownVariables.{known_by};
ghost use Rattle.gql_admit.specs.KeptParts.{left_field, left_inline, left_selection, left_set};
ghost use Rattle.gql_admit.specs.KeptParts.{left_spread};

use crate::conditions::{Known, other_directives};
use crate::whole::is_set_whole;
use gql_base::{Items, Made, Pos, Variables};
use gql_doc::{
    Field, FragmentSpread, InlineFragment, Positioned, Selection, SelectionSet, VariableDefinition,
};
use gql_request::definition_places;
use std::alloc::Global;

/// A set without the selections that `@skip` and `@include` leave out, at every depth, and without
/// these directives on the others.
pub fn keep(
    alloc: Global,
    set: SelectionSet,
    definitions: &[Positioned<VariableDefinition>],
    variables: &Variables,
) -> Made<SelectionSet>
    ensures { IfOk result (λ left. left
        ≡ kept_set (variable_value variables.now definitions.now) set) }
{
    let places = definition_places(alloc, definitions)?;
    let known = Known::new(definitions, &places, variables);
    let left = keep_known(alloc, set, &known)?;
    Ok(left)
}

/// The same by what the variables stand for.
#[tactic(auto, using(crate::proofs::KeepLemmas::set_kept))]
pub(crate) fn keep_known(alloc: Global, set: SelectionSet, known: &Known<'_>) -> Made<SelectionSet>
    ensures { IfOk result (λ left. left ≡ kept_set (known_by known.now) set) }
{
    if is_set_whole(&set) {
        return Ok(set);
    }
    let SelectionSet { items } = set;
    let items = keep_selections(alloc, items, known)?;
    Ok(SelectionSet { items })
}

#[cycle(keep)]
fn keep_selections(
    alloc: Global,
    selections: Items<Positioned<Selection>>,
    known: &Known,
) -> Made<Items<Positioned<Selection>>>
    ensures { IfOk result (λ left. left ≡ kept (known_by known.now) selections) }
{
    let mut left = Items::with_capacity(alloc, selections.len())?;
    for selection in selections.into_vec() {
        let Positioned { pos, node } = selection;
        push_some(&mut left, keep_selection(alloc, node, pos, known)?)?;
    }
    Ok(left)
}

/// Adds an item, where there is one.
fn push_some<T: Drop>(items: &mut Items<T>, item: Option<T>) -> Made<()>
    ensures { OnOk result (items.new ≡ items.old ++ option_to_list item) }
{
    match item {
        Some(item) => items.push(item),
        None => Ok(()),
    }
}

#[cycle(keep)]
fn keep_selection(
    alloc: Global,
    node: Selection,
    pos: Pos,
    known: &Known,
) -> Made<Option<Positioned<Selection>>>
    ensures { IfOk result (λ left. left ≡ left_selection (known_by known.now)
        (record { pos = pos; node = node })) }
{
    match node {
        Selection::Field(field) => {
            if !known.keeps(field.node.directives.as_slice()) {
                return Ok(None);
            }
            let node = Selection::Field(keep_field(alloc, field, known)?);
            Ok(Some(Positioned { pos, node }))
        }
        Selection::FragmentSpread(spread) => {
            if !known.keeps(spread.node.directives.as_slice()) {
                return Ok(None);
            }
            let node = Selection::FragmentSpread(keep_spread(spread));
            Ok(Some(Positioned { pos, node }))
        }
        Selection::InlineFragment(inline) => {
            if !known.keeps(inline.node.directives.as_slice()) {
                return Ok(None);
            }
            let node = Selection::InlineFragment(keep_inline(alloc, inline, known)?);
            Ok(Some(Positioned { pos, node }))
        }
    }
}

#[cycle(keep)]
fn keep_field(alloc: Global, field: Positioned<Field>, known: &Known) -> Made<Positioned<Field>>
    ensures { IfOk result (λ left. left ≡ left_field (known_by known.now) field) }
{
    let Positioned { pos, node } = field;
    let Field {
        alias,
        name,
        arguments,
        directives,
        selection_set,
    } = node;
    let selection_set = keep_set(alloc, selection_set, known)?;
    let node = Field {
        alias,
        name,
        arguments,
        directives: other_directives(directives),
        selection_set,
    };
    Ok(Positioned { pos, node })
}

fn keep_spread(spread: Positioned<FragmentSpread>) -> Positioned<FragmentSpread>
    ensures { result ≡ left_spread spread }
{
    let Positioned { pos, node } = spread;
    let FragmentSpread {
        fragment_name,
        directives,
    } = node;
    let node = FragmentSpread {
        fragment_name,
        directives: other_directives(directives),
    };
    Positioned { pos, node }
}

#[cycle(keep)]
fn keep_inline(
    alloc: Global,
    inline: Positioned<InlineFragment>,
    known: &Known,
) -> Made<Positioned<InlineFragment>>
    ensures { IfOk result (λ left. left ≡ left_inline (known_by known.now) inline) }
{
    let Positioned { pos, node } = inline;
    let InlineFragment {
        type_condition,
        directives,
        selection_set,
    } = node;
    let selection_set = keep_set(alloc, selection_set, known)?;
    let node = InlineFragment {
        type_condition,
        directives: other_directives(directives),
        selection_set,
    };
    Ok(Positioned { pos, node })
}

#[cycle(keep)]
fn keep_set(
    alloc: Global,
    set: Positioned<SelectionSet>,
    known: &Known,
) -> Made<Positioned<SelectionSet>>
    ensures { IfOk result (λ left. left ≡ left_set (known_by known.now) set) }
{
    let Positioned { pos, node } = set;
    let SelectionSet { items } = node;
    let items = keep_selections(alloc, items, known)?;
    let node = SelectionSet { items };
    Ok(Positioned { pos, node })
}
