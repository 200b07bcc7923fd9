//! The occurrences of fields in groups: those of one key as one field (GraphQL, October 2021,
//! section 6.3.2, and MergeSelectionSets of section 6.4.3), or each alone.
ghost use Rattle.std.specs.Prelude.{◌≡◌, ◌++◌, ◌∷◌, [], length, IfOk, OnOk};
ghost use Rattle.gql_base.specs.Pairs.{unite};
ghost use Rattle.gql_select.specs.Collected.{Setting};
ghost use Rattle.gql_select.specs.Documents.{both, reading};
ghost use Rattle.gql_select.specs.Reading.{keyed, merged};
ghost use Rattle.gql_select.specs.Behind.{all_behind};
ghost use Rattle.gql_collect.specs.GroupFields.{groups_by};
ghost use Rattle.gql_collect.specs.Groups.{under_keys, under_names};
ghost use Rattle.gql_collect.specs.KeyNames.{key_text, names_in};

use crate::basis::Grouping;
use crate::group::{Group, Groups};
use crate::key_names::Keys;
use gql_base::{Copied, Made, Name, Pairs};
use gql_doc::{Field, Positioned};
use std::alloc::Global;

/// The groups of the fields.
pub(crate) fn group_fields<'a>(
    alloc: Global,
    grouping: Grouping,
    fields: Vec<&'a Positioned<Field>>,
) -> Made<Groups<'a>>
    ensures { (setting : Setting) → IfOk result (λ made.
        under_names (names_in made.keys) made.groups.items
        ≡ groups_by grouping setting (all_behind fields.entry.items)) }
{
    match grouping {
        Grouping::ByKey | Grouping::ByKeyWhole => group_by_key(alloc, fields),
        Grouping::Each => group_each(alloc, fields),
    }
}

/// One group for each key of the fields.
#[tactic(auto, using(gql_select::proofs::ZipLemmas::names_long, crate::proofs::GroupLemmas::occurrence_more))]
fn group_by_key<'a>(alloc: Global, fields: Vec<&'a Positioned<Field>>) -> Made<Groups<'a>>
    ensures { (setting : Setting) → IfOk result (λ made.
        under_names (names_in made.keys) made.groups.items
        ≡ merged (reading setting) (all_behind fields.entry.items)) }
{
    let mut keys = Pairs::new(alloc);
    let mut groups = Vec::new(alloc);
    for field in fields {
        add_occurrence(alloc, &mut keys, &mut groups, field)?;
    }
    Ok(Groups {
        keys: Keys::Once(keys),
        groups,
    })
}

/// Adds an occurrence to the group of its key, or as a group of its own after the others.
fn add_occurrence<'a>(
    alloc: Global,
    keys: &mut Pairs<()>,
    groups: &mut Vec<Group<'a>>,
    field: &'a Positioned<Field>,
) -> Made<()>
    requires { length groups.old.items ≡ length keys.old }
    ensures paired { OnOk result (length groups.new.items ≡ length keys.new) }
    ensures united { OnOk result (under_keys keys.new groups.new.items
        ≡ unite both (under_keys keys.old groups.old.items) (key_text field.entry.now)
        field.entry.now) }
{
    let name = &field.node.response_key().node;
    let key = name.as_str();
    match keys.place_of(key) {
        Some(place) => {
            groups[place].more.push(field)?;
            Ok(())
        }
        None => {
            keys.add_fresh(name.try_clone(alloc)?, ())?;
            groups.push(Group {
                first: field,
                more: Vec::new(alloc),
            })?;
            Ok(())
        }
    }
}

/// Each of the fields as a group of its own.
#[tactic(auto, using(crate::proofs::GroupingLemmas::alone_more))]
fn group_each<'a>(alloc: Global, fields: Vec<&'a Positioned<Field>>) -> Made<Groups<'a>>
    ensures { (setting : Setting) → IfOk result (λ made.
        under_names (names_in made.keys) made.groups.items
        ≡ keyed (reading setting) (all_behind fields.entry.items)) }
{
    let mut names = Vec::with_capacity(alloc, fields.len())?;
    let mut groups = Vec::with_capacity(alloc, fields.len())?;
    for field in fields {
        add_alone(alloc, &mut names, &mut groups, field)?;
    }
    Ok(Groups {
        keys: Keys::Each(names),
        groups,
    })
}

/// Adds an occurrence as a group of its own after the others.
#[tactic(auto, using(crate::proofs::GroupingLemmas::group_alone))]
fn add_alone<'a>(
    alloc: Global,
    names: &mut Vec<Name>,
    groups: &mut Vec<Group<'a>>,
    field: &'a Positioned<Field>,
) -> Made<()>
    requires { length groups.old.items ≡ length names.old.items }
    ensures paired { OnOk result (length groups.new.items ≡ length names.new.items) }
    ensures added { OnOk result (under_names names.new.items groups.new.items
        ≡ under_names names.old.items groups.old.items
        ++ (key_text field.entry.now, field.entry.now) ∷ []) }
{
    let name = &field.node.response_key().node;
    names.push(name.try_clone(alloc)?)?;
    groups.push(Group {
        first: field,
        more: Vec::new(alloc),
    })?;
    Ok(())
}
