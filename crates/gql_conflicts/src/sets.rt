//! The sets of a document's fields, by numbers. A set is looked up by its field's place, and then
//! compared, so that nothing need be known of how the numbers were given. A set that is one spread
//! alone is looked up by its fragment, since all such sets have the same fields.
ghost use Rattle.std.specs.Prelude.{◌≡◌, IsTrue};
ghost use Rattle.std.specs.Option.{IfSome};
ghost use Rattle.gql_doc.specs.declared.document.Selection.{out-Selection};
ghost use Rattle.gql_doc.specs.declared.document.Selection.TheOpen.{Selection-F};
ghost use Rattle.gql_select.specs.Collected.{own_selections};
ghost use Rattle.gql_conflicts.specs.Sets.{HasNumber, HaveSame, IsSole};

use crate::known::Known;
use crate::same_field::same_set;
use crate::survey::survey_of;
use gql_base::{Made, Pairs};
use gql_doc::{
    ExecutableDocument, Field, FragmentDefinition, FragmentSpread, Positioned, Selection,
};
use std::alloc::Global;
use std::collections::BTreeMap;

/// The fields that have a set, and by each line and column the number of the latest of them.
#[derive(Drop)]
pub(crate) struct Sets<'a> {
    pub known: Vec<Known<'a>>,
    pub latest: BTreeMap<(usize, usize), usize>,
}

/// The sets of a document's fields.
pub(crate) fn sets_of<'a>(alloc: Global, doc: &'a ExecutableDocument) -> Made<Sets<'a>> {
    let survey = survey_of(alloc, doc)?;
    let mut sets = Sets {
        known: Vec::new(alloc),
        latest: BTreeMap::new(alloc),
    };
    for spot in survey.spots.as_slice() {
        if !spot.field.node.selection_set.node.items.is_empty() {
            sets.add(&doc.fragments, spot.field)?;
        }
    }
    Ok(sets)
}

impl<'a> Sets<'a> {
    /// Gives the set of a field the next number.
    fn add(
        &mut self,
        fragments: &Pairs<Positioned<FragmentDefinition>>,
        field: &'a Positioned<Field>,
    ) -> Made<()> {
        let before = self
            .latest
            .insert(mark_of(fragments, field), self.known.len())?;
        self.known.push(Known { field, before })?;
        Ok(())
    }

    /// The number of a set that has the same fields as that of a field, if one is known.
    pub(crate) fn number_of(
        &self,
        fragments: &Pairs<Positioned<FragmentDefinition>>,
        field: &Positioned<Field>,
    ) -> Option<usize>
        ensures { IfSome result (HasNumber self.now.known.items field.now) }
    {
        let known = self.known.as_slice();
        match self.latest.get(&mark_of(fragments, field)) {
            None => None,
            Some(latest) => number_from(known, *latest, field),
        }
    }
}

/// The number of a set that has the same fields as that of a field. The numbers from one on are
/// looked at, each before the one that names it.
fn number_from(known: &[Known<'_>], latest: usize, field: &Positioned<Field>) -> Option<usize>
    ensures { IfSome result (HasNumber known.now field.now) }
{
    let mut next = Some(latest);
    for _ in 0..known.len() {
        let Some(number) = next else {
            return None;
        };
        if is_number_of(known, number, field) {
            return Some(number);
        }
        next = before(known, number);
    }
    None
}

/// True only where the set of a number has the same fields as that of a field.
fn is_number_of(known: &[Known<'_>], number: usize, field: &Positioned<Field>) -> bool
    ensures { IsTrue result → HasNumber known.now field.now number }
{
    if number >= known.len() {
        return false;
    }
    have_same(known[number].field, field)
}

/// The number before another that is looked up in the same way.
fn before(known: &[Known<'_>], number: usize) -> Option<usize> {
    match known.get(number) {
        None => None,
        Some(one) => one.before,
    }
}

/// True only where the sets of two fields have the same fields on each object.
fn have_same(one: &Positioned<Field>, other: &Positioned<Field>) -> bool
    ensures { IsTrue result → HaveSame (own_selections one.now) (own_selections other.now) }
{
    match sole_spread(one) {
        None => same_set(&one.node.selection_set, &other.node.selection_set),
        Some(spread) => have_spread(spread, one, other),
    }
}

/// The same where the first set is this spread alone.
fn have_spread(
    spread: &Positioned<FragmentSpread>,
    one: &Positioned<Field>,
    other: &Positioned<Field>,
) -> bool
    ensures { IsSole spread.now one.now → IsTrue result
        → HaveSame (own_selections one.now) (own_selections other.now) }
{
    match sole_spread(other) {
        None => false,
        Some(second) => spread_same(spread, second),
    }
}

/// True only where both spread the same fragment.
fn spread_same(one: &Positioned<FragmentSpread>, other: &Positioned<FragmentSpread>) -> bool
    ensures { IsTrue result
        → one.now.node.fragment_name.node ≡ other.now.node.fragment_name.node }
{
    one.node.fragment_name.node == other.node.fragment_name.node
}

/// The spread that a field's set is, where it is a spread alone.
fn sole_spread<'a>(field: &'a Positioned<Field>) -> Option<&'a Positioned<FragmentSpread>>
    ensures { IfSome result (λ spread. IsSole spread.now field.entry.now) }
{
    let selections = field.node.selection_set.node.items.as_slice();
    if selections.len() != 1 {
        return None;
    }
    spread_in(&selections[0])
}

/// The spread that a selection is, if it is one.
fn spread_in<'a>(selection: &'a Positioned<Selection>) -> Option<&'a Positioned<FragmentSpread>>
    ensures { IfSome result (λ spread.
        out-Selection selection.entry.now.node ≡ Selection-F.FragmentSpread spread.now) }
{
    match &selection.node {
        Selection::FragmentSpread(spread) => Some(spread),
        _ => None,
    }
}

/// By what a field's set is looked up: its line and column, or the number of the fragment that it
/// spreads alone, where no line is.
fn mark_of(
    fragments: &Pairs<Positioned<FragmentDefinition>>,
    field: &Positioned<Field>,
) -> (usize, usize) {
    match sole_fragment(fragments, field) {
        None => (field.pos.line, field.pos.column),
        Some(place) => (0, place),
    }
}

/// The number of the fragment that a field's set is a spread of, where it is a spread alone.
fn sole_fragment(
    fragments: &Pairs<Positioned<FragmentDefinition>>,
    field: &Positioned<Field>,
) -> Option<usize> {
    let spread = sole_spread(field)?;
    fragments.place_of(spread.node.fragment_name.node.as_str())
}
