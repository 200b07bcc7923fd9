//! CollectFields (GraphQL, October 2021, section 6.3.2) where each fragment is entered at its first
//! spread alone: no selection is looked at twice, and what is left out are repetitions. As in
//! `collect`, no directive is looked at.
ghost use Rattle.std.specs.Prelude.{◌≡◌, ◌≤◌, ◌<◌, ◌+◌, ℕ, List, [], Some, true, IfOk, OnErr};
ghost use Rattle.std.specs.Prelude.{OnOk, length};
ghost use Rattle.gql_base.specs.Names.{place_of};
ghost use Rattle.gql_base.specs.Pairs.{names_of};
ghost use Rattle.gql_doc.specs.declared.document.InlineFragment.{out-InlineFragment};
ghost use Rattle.gql_doc.specs.declared.document.Selection.{out-Selection};
ghost use Rattle.gql_collect.specs.CollectFields.{ReadsAlike, setting_by};
ghost use Rattle.gql_collect.specs.CollectOnce.{IsAt, left_in, once_collected};
ghost use Rattle.gql_collect.specs.CollectOnce.{selections_of_all, walked, whole_setting};
ghost use Rattle.gql_schema.specs.Object.{object_name};
ghost use Rattle.gql_select.specs.Behind.{all_behind};
ghost use Rattle.gql_select.specs.Collected.{Setting, own_selections};
ghost use Rattle.gql_select.specs.Documents.{with_others};
ghost use Rattle.gql_select.specs.Once.{Walk, collect_once, once_inline, once_of, once_spread};
ghost use Rattle.gql_select.specs.Standing.{count_of, is_marked, standing, standing_among};
ghost use Rattle.gql_select.specs.Standing.{standing_in};

use crate::collect::Collector;
use gql_base::{Copied, Items, Made, Pairs, Steps};
use gql_doc::{Field, FragmentDefinition, InlineFragment, Positioned, Selection, SelectionSet};
use gql_schema::{Object, Types};
use std::alloc::Global;
use std::marker::Brand;
use std::sync::ledger::{Blank, Ledger};

/// What a walk has found so far: which fragments it entered, by their places, and the fields. Before
/// the first fragment there are no marks.
#[derive(Drop)]
struct Found<'a> {
    entered: Vec<bool>,
    fields: Vec<&'a Positioned<Field>>,
}

/// The object whose fields are collected, by its name.
#[derive(Clone, Copy)]
struct OfObject<'a> {
    object: &'a str,
}

/// The fields of an object in selections, in document order, where each fragment is entered once.
#[tactic(auto, using(crate::proofs::OnceAlikeLemmas::once_alike))]
pub fn collect_once_fields<'a>(
    alloc: Global,
    collector: &Collector<'a>,
    object: &str,
    selections: &'a [Positioned<Selection>],
) -> Made<Vec<&'a Positioned<Field>>>
    ensures { (setting : Setting) → ReadsAlike collector.entry.now setting
        → IfOk result (λ fields. all_behind fields.items
        ≡ collect_once setting object.now selections.entry.now) }
{
    let sought = OfObject { object };
    fields_on_blank::<Brand>(alloc, collector, sought, selections, Blank::new(1))
}

/// The fields of an object in the sets of all occurrences of a key, the first and more
/// (MergeSelectionSets, section 6.4.3), where each fragment is entered once.
#[tactic(auto, using(crate::proofs::OnceAlikeLemmas::once_alike))]
pub fn collect_once_merged_fields<'a>(
    alloc: Global,
    collector: &Collector<'a>,
    object: &str,
    first: &'a Positioned<Field>,
    more: &[&'a Positioned<Field>],
) -> Made<Vec<&'a Positioned<Field>>>
    ensures { (setting : Setting) → ReadsAlike collector.entry.now setting
        → IfOk result (λ fields. all_behind fields.items ≡ collect_once setting object.now
        (own_selections (with_others first.entry.now (all_behind more.entry.now)))) }
{
    let sought = OfObject { object };
    merged_on_blank::<Brand>(alloc, collector, sought, first, more, Blank::new(1))
}

/// The first of these with steps that nobody looks at.
fn fields_on_blank<'a, L: Ledger>(
    alloc: Global,
    collector: &Collector<'a>,
    sought: OfObject<'_>,
    selections: &'a [Positioned<Selection>],
    blank: Blank,
) -> Made<Vec<&'a Positioned<Field>>>
    requires name { blank.name ≡ L.name }
    requires parts { blank.parts ≡ L.parts }
    requires some { 0 < blank.parts }
    ensures { IfOk result (λ fields. all_behind fields.items
        ≡ once_collected collector.entry.now sought.entry.object.now selections.entry.now) }
{
    let mut steps: Steps<L> = Steps::new(blank);
    collect_fields_counted(alloc, collector, sought.object, selections, &mut steps)
}

/// The second of them.
fn merged_on_blank<'a, L: Ledger>(
    alloc: Global,
    collector: &Collector<'a>,
    sought: OfObject<'_>,
    first: &'a Positioned<Field>,
    more: &[&'a Positioned<Field>],
    blank: Blank,
) -> Made<Vec<&'a Positioned<Field>>>
    requires name { blank.name ≡ L.name }
    requires parts { blank.parts ≡ L.parts }
    requires some { 0 < blank.parts }
    ensures { IfOk result (λ fields. all_behind fields.items ≡ once_collected collector.entry.now
        sought.entry.object.now
        (own_selections (with_others first.entry.now (all_behind more.entry.now)))) }
{
    let mut steps: Steps<L> = Steps::new(blank);
    collect_merged_counted(alloc, collector, sought.object, first, more, &mut steps)
}

/// The fields in selections, where each selection that is looked at is one step. There are at most
/// as many as the selections that stand in these and in the fragments, also where memory runs out.
pub fn collect_fields_counted<'a, L: Ledger>(
    alloc: Global,
    collector: &Collector<'a>,
    object: &str,
    selections: &'a [Positioned<Selection>],
    steps: &mut Steps<L>,
) -> Made<Vec<&'a Positioned<Field>>>
    ensures fields { IfOk result (λ fields. all_behind fields.items
        ≡ once_collected collector.entry.now object.now selections.entry.now) }
    ensures bound { steps.new ≤ steps.old
        + (standing_among selections.entry.now + standing_in collector.entry.now.fragments.now) }
{
    let mut found = nothing_found(alloc);
    add_fields(
        collector,
        collector.levels,
        object,
        selections,
        &mut found,
        steps,
    )?;
    Ok(found.fields)
}

/// The same in the sets of all occurrences of a key.
pub fn collect_merged_counted<'a, L: Ledger>(
    alloc: Global,
    collector: &Collector<'a>,
    object: &str,
    first: &'a Positioned<Field>,
    more: &[&'a Positioned<Field>],
    steps: &mut Steps<L>,
) -> Made<Vec<&'a Positioned<Field>>>
    ensures fields { IfOk result (λ fields. all_behind fields.items
        ≡ once_collected collector.entry.now object.now
        (own_selections (with_others first.entry.now (all_behind more.entry.now)))) }
    ensures bound { steps.new ≤ steps.old + (standing_among
        (own_selections (with_others first.entry.now (all_behind more.entry.now)))
        + standing_in collector.entry.now.fragments.now) }
{
    let mut found = nothing_found(alloc);
    add_own_fields(collector, object, first, &mut found, steps)?;
    for occurrence in more {
        add_own_fields(collector, object, occurrence, &mut found, steps)?;
    }
    Ok(found.fields)
}

/// The fields of an object in sets, one after another, as often as a set itself stands among them,
/// but each fragment entered once. No level of fragments is too deep. Each selection that is looked
/// at is one step: there are at most as many as the selections that stand in the sets and in the
/// fragments, also where memory runs out.
pub fn collect_counted<L: Ledger>(
    alloc: Global,
    types: &Types,
    object: &Object,
    sets: &[SelectionSet],
    fragments: &Pairs<Positioned<FragmentDefinition>>,
    steps: &mut Steps<L>,
) -> Made<Items<Positioned<Field>>>
    ensures fields { IfOk result (λ fields. fields
        ≡ collect_once (whole_setting types.now fragments.now) (object_name object.now)
        (selections_of_all sets.now)) }
    ensures bound { steps.new ≤ steps.old
        + (standing_among (selections_of_all sets.now) + standing_in fragments.now) }
{
    let collector = Collector {
        types,
        fragments,
        levels: usize::MAX,
    };
    let fields = collect_sets_counted(alloc, &collector, object.type_name(), sets, steps)?;
    copies(alloc, fields.as_slice())
}

/// The fields in sets, one after another.
fn collect_sets_counted<'a, L: Ledger>(
    alloc: Global,
    collector: &Collector<'a>,
    object: &str,
    sets: &'a [SelectionSet],
    steps: &mut Steps<L>,
) -> Made<Vec<&'a Positioned<Field>>>
    ensures fields { IfOk result (λ fields. all_behind fields.items
        ≡ once_collected collector.entry.now object.now (selections_of_all sets.entry.now)) }
    ensures bound { steps.new ≤ steps.old + (standing_among (selections_of_all sets.entry.now)
        + standing_in collector.entry.now.fragments.now) }
{
    let mut found = nothing_found(alloc);
    for set in sets {
        let selections = set.items.as_slice();
        add_fields(
            collector,
            collector.levels,
            object,
            selections,
            &mut found,
            steps,
        )?;
    }
    Ok(found.fields)
}

/// Copies of fields.
fn copies(alloc: Global, fields: &[&Positioned<Field>]) -> Made<Items<Positioned<Field>>>
    ensures { IfOk result (λ copies. copies ≡ all_behind fields.now) }
{
    let mut copies = Items::new(alloc);
    for field in fields {
        copies.push(field.try_clone(alloc)?)?;
    }
    Ok(copies)
}

/// Nothing is found at first, and no memory is taken.
fn nothing_found<'a>(alloc: Global) -> Found<'a>
    ensures entered { result.entered.items ≡ [] }
    ensures fields { result.fields.items ≡ [] }
{
    Found {
        entered: Vec::new(alloc),
        fields: Vec::new(alloc),
    }
}

/// Walks through the set of an occurrence.
fn add_own_fields<'a, L: Ledger>(
    collector: &Collector<'a>,
    object: &str,
    occurrence: &'a Positioned<Field>,
    found: &mut Found<'a>,
    steps: &mut Steps<L>,
) -> Made<()>
    ensures walked { (walk : Walk) → IsAt collector.entry.now.fragments.now walk found.old
        → OnOk result (IsAt collector.entry.now.fragments.now
        (walked collector.entry.now collector.entry.now.levels object.now walk
        (own_selections occurrence.entry.now)) found.new) }
    ensures bound { steps.new + left_in collector.entry.now.fragments.now found.new ≤ steps.old
        + (standing_among (own_selections occurrence.entry.now)
        + left_in collector.entry.now.fragments.now found.old) }
{
    let selections = occurrence.node.selection_set.node.items.as_slice();
    add_fields(
        collector,
        collector.levels,
        object,
        selections,
        found,
        steps,
    )
}

/// Walks through selections, as many levels of fragments deep as are left.
#[cycle(once)]
fn add_fields<'a, L: Ledger>(
    collector: &Collector<'a>,
    left: usize,
    object: &str,
    selections: &'a [Positioned<Selection>],
    found: &mut Found<'a>,
    steps: &mut Steps<L>,
) -> Made<()>
    ensures walked { (walk : Walk) → IsAt collector.entry.now.fragments.now walk found.old
        → OnOk result (IsAt collector.entry.now.fragments.now
        (walked collector.entry.now left object.now walk selections.entry.now) found.new) }
    ensures bound { steps.new + left_in collector.entry.now.fragments.now found.new ≤ steps.old
        + (standing_among selections.entry.now
        + left_in collector.entry.now.fragments.now found.old) }
{
    if left == 0 {
        return Ok(());
    }
    for selection in selections {
        add_selection(collector, left - 1, object, &selection.node, found, steps)?;
    }
    Ok(())
}

/// Walks through a selection.
#[cycle(once)]
fn add_selection<'a, L: Ledger>(
    collector: &Collector<'a>,
    left: usize,
    object: &str,
    selection: &'a Selection,
    found: &mut Found<'a>,
    steps: &mut Steps<L>,
) -> Made<()>
    ensures walked { (walk : Walk) → IsAt collector.entry.now.fragments.now walk found.old
        → OnOk result (IsAt collector.entry.now.fragments.now
        (once_of (setting_by collector.entry.now) object.now
        (walked collector.entry.now left object.now) walk (out-Selection selection.entry.now))
        found.new) }
    ensures bound { steps.new + left_in collector.entry.now.fragments.now found.new ≤ steps.old
        + (count_of selection.entry.now + left_in collector.entry.now.fragments.now found.old) }
{
    steps.tick();
    match selection {
        Selection::Field(field) => {
            found.fields.push(field)?;
            Ok(())
        }
        Selection::FragmentSpread(spread) => {
            let name = spread.node.fragment_name.node.as_str();
            add_spread(collector, left, object, name, found, steps)
        }
        Selection::InlineFragment(fragment) => {
            add_inline(collector, left, object, &fragment.node, found, steps)
        }
    }
}

/// Walks through the fragment of a name, if there is one, it wasn't entered and it applies to the
/// object.
#[cycle(once)]
fn add_spread<'a, L: Ledger>(
    collector: &Collector<'a>,
    left: usize,
    object: &str,
    name: &str,
    found: &mut Found<'a>,
    steps: &mut Steps<L>,
) -> Made<()>
    ensures walked { (walk : Walk) → IsAt collector.entry.now.fragments.now walk found.old
        → OnOk result (IsAt collector.entry.now.fragments.now
        (once_spread (setting_by collector.entry.now) object.now
        (walked collector.entry.now left object.now) walk name.now) found.new) }
    ensures bound { steps.new + left_in collector.entry.now.fragments.now found.new
        ≤ steps.old + left_in collector.entry.now.fragments.now found.old }
{
    match collector.fragments.place_of(name) {
        None => Ok(()),
        Some(place) => add_fragment(collector, left, object, place, found, steps),
    }
}

/// Walks through the fragment at a place, if it wasn't entered and applies to the object. It is
/// marked before it is walked through.
#[cycle(once)]
fn add_fragment<'a, L: Ledger>(
    collector: &Collector<'a>,
    left: usize,
    object: &str,
    place: usize,
    found: &mut Found<'a>,
    steps: &mut Steps<L>,
) -> Made<()>
    requires { place < length collector.now.fragments.now }
    ensures walked { (walk : Walk) → IsAt collector.entry.now.fragments.now walk found.old
        → (name : List ℕ) → place_of name (names_of collector.entry.now.fragments.now) ≡ Some place
        → OnOk result (IsAt collector.entry.now.fragments.now
        (once_spread (setting_by collector.entry.now) object.now
        (walked collector.entry.now left object.now) walk name) found.new) }
    ensures bound { steps.new + left_in collector.entry.now.fragments.now found.new
        ≤ steps.old + left_in collector.entry.now.fragments.now found.old }
{
    if was_entered(found.entered.as_slice(), place) {
        return Ok(());
    }
    let (_, fragment) = collector.fragments.at(place);
    let condition = fragment.node.type_condition.node.as_str();
    if !collector.types.covers(Some(condition), object) {
        return Ok(());
    }
    mark(&mut found.entered, collector.fragments.len(), place)?;
    let selections = fragment.node.selection_set.node.items.as_slice();
    add_fields(collector, left, object, selections, found, steps)
}

/// Walks through a fragment in place, which applies to each object where it has no condition.
#[cycle(once)]
fn add_inline<'a, L: Ledger>(
    collector: &Collector<'a>,
    left: usize,
    object: &str,
    fragment: &'a InlineFragment,
    found: &mut Found<'a>,
    steps: &mut Steps<L>,
) -> Made<()>
    ensures walked { (walk : Walk) → IsAt collector.entry.now.fragments.now walk found.old
        → OnOk result (IsAt collector.entry.now.fragments.now
        (once_inline (setting_by collector.entry.now) object.now
        (walked collector.entry.now left object.now) walk fragment.entry.now) found.new) }
    ensures bound { steps.new + left_in collector.entry.now.fragments.now found.new ≤ steps.old
        + (standing (out-InlineFragment fragment.entry.now).selection_set.node
        + left_in collector.entry.now.fragments.now found.old) }
{
    let selections = fragment.selection_set.node.items.as_slice();
    match &fragment.type_condition {
        None => add_fields(collector, left, object, selections, found, steps),
        Some(condition) => {
            if !collector
                .types
                .covers(Some(condition.node.as_str()), object)
            {
                return Ok(());
            }
            add_fields(collector, left, object, selections, found, steps)
        }
    }
}

/// Whether the fragment at a place was entered.
fn was_entered(entered: &[bool], place: usize) -> bool
    ensures { result ≡ is_marked entered.now place }
{
    match entered.get(place) {
        None => false,
        Some(mark) => *mark,
    }
}

/// Marks the fragment at a place as entered.
fn mark(entered: &mut Vec<bool>, count: usize, place: usize) -> Made<()>
    requires { place < count }
    ensures here { OnOk result (is_marked entered.new.items place ≡ true) }
    ensures others { (other : ℕ) → (other ≡ place → ⊥)
        → is_marked entered.new.items other ≡ is_marked entered.old.items other }
    ensures err { OnErr result
        ((other : ℕ) → is_marked entered.new.items other ≡ is_marked entered.old.items other) }
{
    make_marks(entered, count)?;
    entered[place] = true;
    Ok(())
}

/// Makes so many marks, if there are none yet.
fn make_marks(entered: &mut Vec<bool>, count: usize) -> Made<()>
    ensures same { (place : ℕ)
        → is_marked entered.new.items place ≡ is_marked entered.old.items place }
    ensures long { OnOk result (count ≤ length entered.new.items) }
{
    if entered.len() >= count {
        return Ok(());
    }
    entered.resize(count, false)
}
