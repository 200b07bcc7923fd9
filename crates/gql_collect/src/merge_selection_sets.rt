//! The one field that stands for several occurrences of a key (GraphQL, October 2021, section
//! 6.4.3: MergeSelectionSets).
ghost use Rattle.std.specs.Prelude.{◌≡◌, ◌++◌, IfOk, OnOk};
ghost use Rattle.gql_select.specs.Collected.{own_selections};
ghost use Rattle.gql_select.specs.Documents.{with_others, with_selections};
ghost use Rattle.gql_select.specs.Behind.{all_behind};
ghost use Rattle.gql_collect.specs.Groups.{item_of, own_items};

use crate::group::Group;
use gql_base::{Copied, Items, Made};
use gql_doc::{Field, Positioned, Selection};
use std::alloc::Global;

/// The field that stands for a group, where it has several occurrences.
#[tactic(auto, using(crate::proofs::UnitingLemmas::item_none, crate::proofs::UnitingLemmas::item_some))]
pub(crate) fn item_for(alloc: Global, group: &Group<'_>) -> Made<Option<Field>>
    ensures { IfOk result (λ item. item ≡ item_of group.now) }
{
    let more = group.more.as_slice();
    if more.is_empty() {
        return Ok(None);
    }
    let item = united_item(alloc, group.first, more)?;
    Ok(Some(item))
}

/// A first occurrence with the selections of others after its own.
#[tactic(auto, using(crate::proofs::UnitingLemmas::item_more))]
fn united_item(alloc: Global, first: &Positioned<Field>, more: &[&Positioned<Field>]) -> Made<Field>
    ensures { IfOk result (λ item. item ≡ (with_others first.now (all_behind more.now)).node) }
{
    let mut item = first.node.try_clone(alloc)?;
    for occurrence in more {
        add_selections(alloc, &mut item, occurrence)?;
    }
    Ok(item)
}

/// Adds the selections of an occurrence to those of a field.
fn add_selections(alloc: Global, item: &mut Field, occurrence: &Positioned<Field>) -> Made<()>
    ensures { OnOk result (item.new
        ≡ with_selections item.old (own_items item.old ++ own_selections occurrence.now)) }
{
    let more = occurrence.node.selection_set.node.items.as_slice();
    add_all(alloc, &mut item.selection_set.node.items, more)
}

/// Adds copies of selections.
fn add_all(
    alloc: Global,
    items: &mut Items<Positioned<Selection>>,
    more: &[Positioned<Selection>],
) -> Made<()>
    ensures { OnOk result (items.new ≡ items.old ++ more.now) }
{
    for selection in more {
        items.push(selection.try_clone(alloc)?)?;
    }
    Ok(())
}
