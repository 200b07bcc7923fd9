//! The test of a proposal: whether each set of a document fits the class that is proposed for it.
ghost use Rattle.std.specs.Prelude.{IfOk, IsTrue};
ghost use Rattle.gql_conflicts.specs.Classes.{StandsFor};
ghost use Rattle.gql_conflicts.specs.Proposals.{all_fit, fits, has_entry};
ghost use Rattle.gql_conflicts.specs.Proposals.{name_is_in};

use crate::alike::alike;
use crate::entry::Entry;
use crate::proposal::Proposal;
use gql_base::{Made, Pairs};
use gql_doc::{Field, FragmentDefinition, Positioned, Selection};
use std::alloc::Global;

/// True only where all selections of a set fit a class.
#[cycle(fitting)]
#[tactic(auto, using(crate::proofs::BelowLemmas::each_more, crate::proofs::BelowLemmas::each_passed, crate::proofs::BelowLemmas::none_before))]
pub(crate) fn all_fit(
    selections: &[Positioned<Selection>],
    class: usize,
    alloc: Global,
    fragments: &Pairs<Positioned<FragmentDefinition>>,
    proposal: &Proposal<'_>,
    next: &mut usize,
) -> Made<bool>
    ensures { IfOk result (λ fit. IsTrue fit
        → all_fit fragments.now proposal.now class selections.now) }
{
    for selection in selections {
        if !selection_fits(&selection.node, class, alloc, fragments, proposal, next)? {
            return Ok(false);
        }
    }
    Ok(true)
}

#[cycle(fitting)]
fn selection_fits(
    selection: &Selection,
    class: usize,
    alloc: Global,
    fragments: &Pairs<Positioned<FragmentDefinition>>,
    proposal: &Proposal<'_>,
    next: &mut usize,
) -> Made<bool>
    ensures { IfOk result (λ fit. IsTrue fit → fits fragments.now proposal.now class selection.now) }
{
    match selection {
        Selection::Field(field) => field_fits(field, class, alloc, fragments, proposal, next),
        Selection::FragmentSpread(spread) => {
            let name = spread.node.fragment_name.node.as_str();
            Ok(name_fits(fragments, proposal, name, class))
        }
        Selection::InlineFragment(inline) => {
            let selections = inline.node.selection_set.node.items.as_slice();
            all_fit(selections, class, alloc, fragments, proposal, next)
        }
    }
}

/// True only where a field has an entry in a class, to whose class its own set fits.
#[cycle(fitting)]
fn field_fits(
    field: &Positioned<Field>,
    class: usize,
    alloc: Global,
    fragments: &Pairs<Positioned<FragmentDefinition>>,
    proposal: &Proposal<'_>,
    next: &mut usize,
) -> Made<bool>
    ensures { IfOk result (λ fit. IsTrue fit
        → has_entry fragments.now proposal.now class field.now) }
{
    match proposal.hinted(next) {
        None => Ok(false),
        Some(entry) => {
            if !stands_for(alloc, &entry, field, class)? {
                return Ok(false);
            }
            let selections = field.node.selection_set.node.items.as_slice();
            all_fit(selections, entry.beneath, alloc, fragments, proposal, next)
        }
    }
}

/// True only where an entry of a class stands for a field.
fn stands_for(
    alloc: Global,
    entry: &Entry<'_>,
    field: &Positioned<Field>,
    class: usize,
) -> Made<bool>
    ensures { IfOk result (λ so. IsTrue so → StandsFor entry.now field.now class) }
{
    if entry.class != class {
        return Ok(false);
    }
    let key = entry.field.node.response_key().node.as_str();
    if key != field.node.response_key().node.as_str() {
        return Ok(false);
    }
    alike(alloc, entry.field, field)
}

/// True only where the fragment of a name, if there is one, is in a class.
fn name_fits(
    fragments: &Pairs<Positioned<FragmentDefinition>>,
    proposal: &Proposal<'_>,
    name: &str,
    class: usize,
) -> bool
    ensures { IsTrue result → name_is_in fragments.now proposal.now class name.now }
{
    match fragments.place_of(name) {
        None => true,
        Some(place) => match proposal.classes.get(place) {
            None => false,
            Some(own) => *own == class,
        },
    }
}
