//! The fields of an object, one for each key, with what each asks (GraphQL, October 2021, sections
//! 6.3.1 and 6.3.2).
ghost use Rattle.std.specs.Prelude.{◌≡◌, map, IfOk};
ghost use Rattle.gql_doc.specs.Depth.{field_set};
ghost use Rattle.gql_request.specs.QueryEnv.{NestsIn};
ghost use Rattle.gql_select.specs.Collected.{own_selections};
ghost use Rattle.gql_collect.specs.Basis.{setting_by};
ghost use Rattle.gql_select.specs.Behind.{all_behind};
ghost use Rattle.gql_collect.specs.GroupFields.{collect_by, collected, groups_by};
ghost use Rattle.gql_collect.specs.Groups.{united};
ghost use Rattle.gql_collect.specs.Known.{IsOfAsked};
ghost use Rattle.gql_collect.specs.Levels.{asked_behind, asked_by, asked_of, asked_on, members_of};
ghost use Rattle.gql_collect.specs.Nesting.{AllNest};

use crate::asks::Asks;
use crate::asks_for::asks_for;
use crate::basis::{Basis, Grouping};
use crate::collect::{collect_fields, collect_merged_fields};
use crate::collect_once::{collect_once_fields, collect_once_merged_fields};
use crate::declared_fields::declared_fields;
use crate::group::{Group, Groups};
use crate::group_fields::group_fields;
use crate::key_names::Keys;
use crate::level::{Level, Node};
use crate::merge_selection_sets::item_for;
use gql_base::{Made, Name};
use gql_doc::{Field, Positioned, Selection};
use gql_schema::{SchemaType, Types};
use std::alloc::Global;
use std::rc::Rc;

/// The fields that an object declares, in selections.
pub fn fields_in<'a>(
    alloc: Global,
    basis: &Basis<'a>,
    object: &str,
    selections: &'a [Positioned<Selection>],
) -> Made<Vec<&'a Positioned<Field>>>
    ensures { IfOk result (λ fields. all_behind fields.items ≡ collected basis.entry.now.grouping
        basis.entry.now object.now selections.entry.now) }
{
    let fields = collect_in(alloc, basis, object, selections)?;
    Ok(declared_fields(basis, object, fields))
}

/// The fields that an object declares, in the sets of all occurrences of a key.
pub fn fields_beneath<'a>(
    alloc: Global,
    basis: &Basis<'a>,
    object: &str,
    group: &Group<'a>,
) -> Made<Vec<&'a Positioned<Field>>>
    ensures { IfOk result (λ fields. all_behind fields.items ≡ collected basis.entry.now.grouping
        basis.entry.now object.now (own_selections (united group.entry.now))) }
{
    let fields = collect_beneath(alloc, basis, object, group)?;
    Ok(declared_fields(basis, object, fields))
}

/// All fields in selections: each occurrence as often as it stands where each is a group of its own,
/// and else those of a fragment at its first spread.
fn collect_in<'a>(
    alloc: Global,
    basis: &Basis<'a>,
    object: &str,
    selections: &'a [Positioned<Selection>],
) -> Made<Vec<&'a Positioned<Field>>>
    ensures { IfOk result (λ fields. all_behind fields.items ≡ collect_by basis.entry.now.grouping
        (setting_by basis.entry.now) object.now selections.entry.now) }
{
    let collector = basis.collector();
    match basis.grouping {
        Grouping::ByKey | Grouping::ByKeyWhole => {
            collect_once_fields(alloc, &collector, object, selections)
        }
        Grouping::Each => collect_fields(alloc, &collector, object, selections),
    }
}

/// The same in the sets of all occurrences of a key.
fn collect_beneath<'a>(
    alloc: Global,
    basis: &Basis<'a>,
    object: &str,
    group: &Group<'a>,
) -> Made<Vec<&'a Positioned<Field>>>
    ensures { IfOk result (λ fields. all_behind fields.items ≡ collect_by basis.entry.now.grouping
        (setting_by basis.entry.now) object.now (own_selections (united group.entry.now))) }
{
    let collector = basis.collector();
    let more = group.more.as_slice();
    match basis.grouping {
        Grouping::ByKey | Grouping::ByKeyWhole => {
            collect_once_merged_fields(alloc, &collector, object, group.first, more)
        }
        Grouping::Each => collect_merged_fields(alloc, &collector, object, group.first, more),
    }
}

/// The level of an object with these fields, grouped so, whose sets nest within the levels of the
/// request.
#[tactic(auto, using(crate::proofs::LevelLemmas::asked_zipped))]
pub fn level_of<'a>(
    alloc: Global,
    basis: &Basis<'a>,
    grouping: Grouping,
    object: &str,
    fields: Vec<&'a Positioned<Field>>,
) -> Made<Level<'a>>
    requires nest { AllNest basis.now.env.now (all_behind fields.items) }
    ensures object { IfOk result (λ level. level.object ≡ object.now) }
    ensures members { IfOk result (λ level. members_of level
        ≡ asked_on basis.entry.now object.now
        (groups_by grouping (setting_by basis.entry.now) (all_behind fields.entry.items))) }
{
    let Groups { keys, groups } = group_fields(alloc, grouping, fields)?;
    let nodes = nodes_of(alloc, basis, object, groups)?;
    Ok(Level {
        object: Name::new(alloc, object)?,
        keys: shared(alloc, keys)?,
        nodes,
    })
}

/// The same keys; where each stands once, copies share them from here on.
fn shared(alloc: Global, keys: Keys) -> Made<Keys>
    ensures { IfOk result (λ made. made ≡ keys) }
{
    match keys {
        Keys::Once(pairs) => Ok(Keys::Once(pairs.shared(alloc)?)),
        Keys::Each(names) => Ok(Keys::Each(names)),
    }
}

/// Groups with what each asks on an object.
#[tactic(auto, using(crate::proofs::LevelLemmas::nodes_more))]
fn nodes_of<'a>(
    alloc: Global,
    basis: &Basis<'a>,
    object: &str,
    groups: Vec<Group<'a>>,
) -> Made<Vec<Rc<Node<'a>>>>
    requires nest { AllNest basis.now.env.now (map united groups.items) }
    ensures { IfOk result (λ nodes. map asked_behind nodes.items
        ≡ map (asked_of basis.entry.now object.now) (map united groups.entry.items)) }
{
    let mut nodes = Vec::with_capacity(alloc, groups.len())?;
    for group in groups {
        let node = node_of(alloc, basis, object, group)?;
        nodes.push(Rc::new(alloc, node)?)?;
    }
    Ok(nodes)
}

/// A group with what it asks on an object: that is what its first occurrence asks.
#[tactic(auto, using(crate::proofs::LevelLemmas::asked_first))]
fn node_of<'a>(alloc: Global, basis: &Basis<'a>, object: &str, group: Group<'a>) -> Made<Node<'a>>
    requires nests { NestsIn basis.now.env.now (field_set (united group)) }
    ensures { IfOk result (λ node. asked_by node
        ≡ asked_of basis.entry.now object.now (united group.entry)) }
{
    let item = item_for(alloc, &group)?;
    let asks = asks_for(alloc, basis, object, group.first)?;
    let ty = type_asked(basis.types, &asks);
    Ok(Node {
        basis: *basis,
        group,
        item,
        asks,
        ty,
    })
}

/// What stands under the innermost name of the type of what is asked, where that is an answer.
fn type_asked<'a>(types: &'a Types, asks: &Asks) -> Option<&'a SchemaType>
    ensures { IsOfAsked types.now asks.now result }
{
    match asks {
        Asks::Typename => None,
        Asks::Nothing => None,
        Asks::Call {
            resolver: _,
            ty,
            arguments: _,
        } => types.get(ty.type_name()),
    }
}
