//! A first look at a document: all its sets, by numbers, and which fields stand where. A set that
//! is spread or stands in place is one with the set around it.

use crate::heads::{head_of, join};
use gql_base::{Made, Pairs};
use gql_doc::{
    DocumentOperations, ExecutableDocument, Field, FragmentDefinition, FragmentSpread,
    OperationDefinition, Positioned, Selection, SelectionSet,
};
use std::alloc::Global;

/// A field: the set around it, and its own set.
#[derive(Clone, Copy)]
pub(crate) struct Spot<'a> {
    pub around: usize,
    pub field: &'a Positioned<Field>,
    pub inner: usize,
}

/// The sets of a document, each with one that it is the same as, or itself; the numbers of the sets
/// of operations; and the fields, in the order of a walk through fragments and operations. The sets
/// of fragments have the first numbers.
#[derive(Drop)]
pub(crate) struct Survey<'a> {
    pub heads: Vec<usize>,
    pub roots: Vec<usize>,
    pub spots: Vec<Spot<'a>>,
}

/// Looks at a document.
pub(crate) fn survey_of<'a>(alloc: Global, doc: &'a ExecutableDocument) -> Made<Survey<'a>> {
    let mut survey = Survey {
        heads: Vec::new(alloc),
        roots: Vec::new(alloc),
        spots: Vec::new(alloc),
    };
    look_at_fragments(&doc.fragments, &mut survey)?;
    match &doc.operations {
        DocumentOperations::Single(operation) => {
            look_at_operation(&doc.fragments, operation, &mut survey)?;
        }
        DocumentOperations::Multiple(operations) => {
            look_at_operations(&doc.fragments, operations, &mut survey)?;
        }
    }
    Ok(survey)
}

fn look_at_fragments<'a>(
    fragments: &'a Pairs<Positioned<FragmentDefinition>>,
    survey: &mut Survey<'a>,
) -> Made<()> {
    add_sets(fragments.len(), survey)?;
    for place in 0..fragments.len() {
        let (_, fragment) = fragments.at(place);
        look_at_set(&fragment.node.selection_set, fragments, place, survey)?;
    }
    Ok(())
}

fn look_at_operations<'a>(
    fragments: &'a Pairs<Positioned<FragmentDefinition>>,
    operations: &'a Pairs<Positioned<OperationDefinition>>,
    survey: &mut Survey<'a>,
) -> Made<()> {
    for place in 0..operations.len() {
        let (_, operation) = operations.at(place);
        look_at_operation(fragments, operation, survey)?;
    }
    Ok(())
}

fn look_at_operation<'a>(
    fragments: &'a Pairs<Positioned<FragmentDefinition>>,
    operation: &'a Positioned<OperationDefinition>,
    survey: &mut Survey<'a>,
) -> Made<()> {
    let root = add_set(survey)?;
    survey.roots.push(root)?;
    look_at_set(&operation.node.selection_set, fragments, root, survey)
}

/// Adds so many sets, each itself alone.
fn add_sets(number: usize, survey: &mut Survey<'_>) -> Made<()> {
    for _ in 0..number {
        add_set(survey)?;
    }
    Ok(())
}

/// Adds a set that is itself alone, and answers its number.
fn add_set(survey: &mut Survey<'_>) -> Made<usize> {
    let number = survey.heads.len();
    survey.heads.push(number)?;
    Ok(number)
}

#[cycle(survey)]
fn look_at_set<'a>(
    set: &'a Positioned<SelectionSet>,
    fragments: &'a Pairs<Positioned<FragmentDefinition>>,
    around: usize,
    survey: &mut Survey<'a>,
) -> Made<()> {
    for selection in set.node.items.as_slice() {
        look_at_selection(&selection.node, fragments, around, survey)?;
    }
    Ok(())
}

#[cycle(survey)]
fn look_at_selection<'a>(
    selection: &'a Selection,
    fragments: &'a Pairs<Positioned<FragmentDefinition>>,
    around: usize,
    survey: &mut Survey<'a>,
) -> Made<()> {
    match selection {
        Selection::Field(field) => look_at_field(field, fragments, around, survey),
        Selection::FragmentSpread(spread) => {
            look_at_spread(fragments, spread, around, survey);
            Ok(())
        }
        Selection::InlineFragment(inline) => {
            look_at_set(&inline.node.selection_set, fragments, around, survey)
        }
    }
}

#[cycle(survey)]
fn look_at_field<'a>(
    field: &'a Positioned<Field>,
    fragments: &'a Pairs<Positioned<FragmentDefinition>>,
    around: usize,
    survey: &mut Survey<'a>,
) -> Made<()> {
    let inner = add_set(survey)?;
    survey.spots.push(Spot {
        around,
        field,
        inner,
    })?;
    look_at_set(&field.node.selection_set, fragments, inner, survey)
}

/// The set of a fragment is one with the set in which it is spread.
fn look_at_spread(
    fragments: &Pairs<Positioned<FragmentDefinition>>,
    spread: &Positioned<FragmentSpread>,
    around: usize,
    survey: &mut Survey<'_>,
) {
    if let Some(place) = fragments.place_of(spread.node.fragment_name.node.as_str()) {
        join(survey.heads.as_mut_slice(), around, place);
    }
}

impl Survey<'_> {
    /// The set that stands for all sets that are one with this.
    pub(crate) fn head(&mut self, set: usize) -> usize {
        head_of(self.heads.as_mut_slice(), set)
    }
}
