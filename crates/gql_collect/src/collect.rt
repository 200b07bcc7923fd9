//! CollectFields (GraphQL, October 2021, section 6.3.2) in selections as they are given: the fields
//! of an object, in document order, as many levels of fragments deep as are left. No directive is
//! looked at: what `@skip` and `@include` leave out is taken out of the selections before.
ghost use Rattle.std.specs.Prelude.{◌≡◌, ◌++◌, IfOk, OnOk};
ghost use Rattle.gql_doc.specs.declared.document.Selection.{out-Selection};
ghost use Rattle.gql_collect.specs.CollectFields.{collected, fields_here, fields_of_inline_here};
ghost use Rattle.gql_collect.specs.CollectFields.{fields_of_name, fields_within, ReadsAlike};
ghost use Rattle.gql_select.specs.Behind.{all_behind};
ghost use Rattle.gql_select.specs.Collected.{Setting, collect, own_selections};
ghost use Rattle.gql_select.specs.Documents.{with_others};

use gql_base::{Made, Pairs};
use gql_doc::{Field, FragmentDefinition, InlineFragment, Positioned, Selection};
use gql_schema::Types;
use std::alloc::Global;

/// What sets are read by: the types, the fragments, and how many levels of fragments are entered
/// within one set, the set itself among them.
#[derive(Clone, Copy)]
pub struct Collector<'a> {
    pub types: &'a Types,
    pub fragments: &'a Pairs<Positioned<FragmentDefinition>>,
    pub levels: usize,
}

/// The fields of an object in selections, in document order.
#[tactic(auto, using(crate::proofs::AlikeLemmas::collected_alike))]
pub fn collect_fields<'a>(
    alloc: Global,
    collector: &Collector<'a>,
    object: &str,
    selections: &'a [Positioned<Selection>],
) -> Made<Vec<&'a Positioned<Field>>>
    ensures { (setting : Setting) → ReadsAlike collector.entry.now setting
        → IfOk result (λ fields. all_behind fields.items
        ≡ collect setting object.now selections.entry.now) }
{
    let mut fields = Vec::new(alloc);
    add_fields(collector, collector.levels, object, selections, &mut fields)?;
    Ok(fields)
}

/// The fields of an object in the sets of all occurrences of a key, the first and more
/// (MergeSelectionSets, section 6.4.3).
#[tactic(auto, using(crate::proofs::AlikeLemmas::collected_alike))]
pub fn collect_merged_fields<'a>(
    alloc: Global,
    collector: &Collector<'a>,
    object: &str,
    first: &'a Positioned<Field>,
    more: &[&'a Positioned<Field>],
) -> Made<Vec<&'a Positioned<Field>>>
    ensures { (setting : Setting) → ReadsAlike collector.entry.now setting
        → IfOk result (λ fields. all_behind fields.items ≡ collect setting object.now
        (own_selections (with_others first.entry.now (all_behind more.entry.now)))) }
{
    collect_beneath(alloc, collector, object, first, more)
}

/// The same, as the collector reads.
fn collect_beneath<'a>(
    alloc: Global,
    collector: &Collector<'a>,
    object: &str,
    first: &'a Positioned<Field>,
    more: &[&'a Positioned<Field>],
) -> Made<Vec<&'a Positioned<Field>>>
    ensures { IfOk result (λ fields. all_behind fields.items ≡ collected collector.entry.now
        object.now (own_selections (with_others first.entry.now (all_behind more.entry.now)))) }
{
    let mut fields = Vec::new(alloc);
    add_own_fields(collector, object, first, &mut fields)?;
    for occurrence in more {
        add_own_fields(collector, object, occurrence, &mut fields)?;
    }
    Ok(fields)
}

/// Adds the fields of an object in the set of an occurrence.
fn add_own_fields<'a>(
    collector: &Collector<'a>,
    object: &str,
    occurrence: &'a Positioned<Field>,
    fields: &mut Vec<&'a Positioned<Field>>,
) -> Made<()>
    ensures { OnOk result (all_behind fields.new.items ≡ all_behind fields.old.items
        ++ collected collector.entry.now object.now (own_selections occurrence.entry.now)) }
{
    let selections = occurrence.node.selection_set.node.items.as_slice();
    add_fields(collector, collector.levels, object, selections, fields)
}

/// Adds the fields of an object in selections, as many levels of fragments deep as are left.
#[cycle(collect)]
fn add_fields<'a>(
    collector: &Collector<'a>,
    left: usize,
    object: &str,
    selections: &'a [Positioned<Selection>],
    fields: &mut Vec<&'a Positioned<Field>>,
) -> Made<()>
    ensures { OnOk result (all_behind fields.new.items ≡ all_behind fields.old.items
        ++ fields_within collector.entry.now left object.now selections.entry.now) }
{
    if left == 0 {
        return Ok(());
    }
    for selection in selections {
        add_selection(collector, left - 1, object, &selection.node, fields)?;
    }
    Ok(())
}

/// Adds the fields that a selection stands for.
#[cycle(collect)]
fn add_selection<'a>(
    collector: &Collector<'a>,
    left: usize,
    object: &str,
    selection: &'a Selection,
    fields: &mut Vec<&'a Positioned<Field>>,
) -> Made<()>
    ensures { OnOk result (all_behind fields.new.items ≡ all_behind fields.old.items
        ++ fields_here collector.entry.now left object.now (out-Selection selection.entry.now)) }
{
    match selection {
        Selection::Field(field) => {
            fields.push(field)?;
            Ok(())
        }
        Selection::FragmentSpread(spread) => {
            let name = spread.node.fragment_name.node.as_str();
            add_spread(collector, left, object, name, fields)
        }
        Selection::InlineFragment(fragment) => {
            add_inline(collector, left, object, &fragment.node, fields)
        }
    }
}

/// Adds the fields of a named fragment, if there is one and it applies to the object.
#[cycle(collect)]
fn add_spread<'a>(
    collector: &Collector<'a>,
    left: usize,
    object: &str,
    name: &str,
    fields: &mut Vec<&'a Positioned<Field>>,
) -> Made<()>
    ensures { OnOk result (all_behind fields.new.items ≡ all_behind fields.old.items
        ++ fields_of_name collector.entry.now left object.now name.now) }
{
    match collector.fragments.get(name) {
        None => Ok(()),
        Some(fragment) => {
            let condition = fragment.node.type_condition.node.as_str();
            if collector.types.covers(Some(condition), object) {
                let selections = fragment.node.selection_set.node.items.as_slice();
                add_fields(collector, left, object, selections, fields)
            } else {
                Ok(())
            }
        }
    }
}

/// Adds the fields of a fragment in place, which applies to each object where it has no condition.
#[cycle(collect)]
fn add_inline<'a>(
    collector: &Collector<'a>,
    left: usize,
    object: &str,
    fragment: &'a InlineFragment,
    fields: &mut Vec<&'a Positioned<Field>>,
) -> Made<()>
    ensures { OnOk result (all_behind fields.new.items ≡ all_behind fields.old.items
        ++ fields_of_inline_here collector.entry.now left object.now fragment.entry.now) }
{
    let selections = fragment.selection_set.node.items.as_slice();
    match &fragment.type_condition {
        None => add_fields(collector, left, object, selections, fields),
        Some(condition) => {
            if collector
                .types
                .covers(Some(condition.node.as_str()), object)
            {
                add_fields(collector, left, object, selections, fields)
            } else {
                Ok(())
            }
        }
    }
}
