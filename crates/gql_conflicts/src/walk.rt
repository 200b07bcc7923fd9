//! The exact walk: the fields of an object in groups, one for each key, and under each group the
//! sets of all its occurrences on each object that is possible there. Each part answers whether
//! nothing is told in it and beneath. A merged set that is reached again, with as many levels left,
//! isn't walked through again: its conflicts are told already.
ghost use Rattle.std.specs.Prelude.{◌≡◌, ◌++◌, ℕ, List, IfOk, OnOk};
ghost use Rattle.std.specs.List.{flat_map};
ghost use Rattle.gql_select.specs.Collected.{own_selections};
ghost use Rattle.gql_select.specs.Behind.{all_behind};
ghost use Rattle.gql_conflicts.specs.DocumentConflicts.{told};
ghost use Rattle.gql_conflicts.specs.Groups.{group_tells, groups_tell, told_of, united};
ghost use Rattle.gql_conflicts.specs.Merged.{IsMergedOf};
ghost use Rattle.gql_conflicts.specs.Nesting.{FieldsNest, GroupNests, GroupsNest, Nests};
ghost use Rattle.gql_conflicts.specs.Walk.{among_tells, beneath_tells, set_tells, type_tells};
ghost use Rattle.gql_conflicts.specs.Walked.{Walks, is_nothing};

use crate::beneath::{fields_beneath, fields_in, has_no_set, type_beneath};
use crate::conflict::Conflict;
use crate::group::Group;
use crate::grouping::group_fields;
use crate::merged::Merged;
use crate::merging::merged_of;
use crate::reader::Reader;
use crate::walked::Walked;
use gql_base::{Copied, Items, Made};
use gql_doc::{Field, Positioned, Selection};
use gql_schema::NameSet;
use std::alloc::Global;

/// Tells the conflicts in selections on an object, and under them, in as many levels as are left.
/// True exactly where there are none.
pub(crate) fn add_in_set<'a>(
    alloc: Global,
    reader: &Reader<'a>,
    left: usize,
    object: &str,
    selections: &'a [Positioned<Selection>],
    walked: &mut Walked<'a>,
) -> Made<bool>
    ensures { IfOk result (λ clean. Nests reader.entry.now selections.entry.now → Walks
        reader.entry.now (set_tells reader.entry.now left selections.entry.now object.now)
        clean walked.old walked.new) }
{
    if left == 0 {
        return Ok(true);
    }
    let fields = fields_in(alloc, reader, object, selections)?;
    add_among(alloc, reader, left - 1, object, fields.as_slice(), walked)
}

/// Tells the conflicts among fields of an object, and under them.
#[cycle(walk)]
fn add_among<'a>(
    alloc: Global,
    reader: &Reader<'a>,
    left: usize,
    object: &str,
    fields: &[&'a Positioned<Field>],
    walked: &mut Walked<'a>,
) -> Made<bool>
    ensures { IfOk result (λ clean. FieldsNest reader.entry.now (all_behind fields.entry.now)
        → Walks reader.entry.now
        (among_tells reader.entry.now left object.now (all_behind fields.entry.now))
        clean walked.old walked.new) }
{
    let groups = group_fields(alloc, fields)?;
    add_groups(alloc, reader, left, object, groups.as_slice(), walked)
}

/// Tells what groups of fields of an object tell.
#[cycle(walk)]
fn add_groups<'a>(
    alloc: Global,
    reader: &Reader<'a>,
    left: usize,
    object: &str,
    groups: &[Group<'a>],
    walked: &mut Walked<'a>,
) -> Made<bool>
    ensures { IfOk result (λ clean. GroupsNest reader.entry.now groups.entry.now
        → Walks reader.entry.now
        (groups_tell (beneath_tells reader.entry.now left object.now) groups.entry.now)
        clean walked.old walked.new) }
{
    let mut clean = true;
    for place in 0..groups.len() {
        clean &= add_group(alloc, reader, left, object, &groups[place], walked)?;
    }
    Ok(clean)
}

/// Tells what a group tells: its first occurrence that doesn't ask the same, and what is under
/// it.
#[cycle(walk)]
fn add_group<'a>(
    alloc: Global,
    reader: &Reader<'a>,
    left: usize,
    object: &str,
    group: &Group<'a>,
    walked: &mut Walked<'a>,
) -> Made<bool>
    ensures { IfOk result (λ clean. GroupNests reader.entry.now group.entry.now
        → Walks reader.entry.now
        (group_tells (beneath_tells reader.entry.now left object.now) group.entry.now)
        clean walked.old walked.new) }
{
    let alike = add_unlike(alloc, group.unlike, &mut walked.found)?;
    let clean = add_beneath(alloc, reader, left, object, group, walked)?;
    Ok(alike & clean)
}

/// Tells the conflicts in the sets of a group, on each object that is possible there.
#[cycle(walk)]
fn add_beneath<'a>(
    alloc: Global,
    reader: &Reader<'a>,
    left: usize,
    object: &str,
    group: &Group<'a>,
    walked: &mut Walked<'a>,
) -> Made<bool>
    ensures { IfOk result (λ clean. GroupNests reader.entry.now group.entry.now
        → Walks reader.entry.now
        (beneath_tells reader.entry.now left object.now (united group.entry.now))
        clean walked.old walked.new) }
{
    if has_no_set(group) {
        return Ok(true);
    }
    let name = group.first.field().node.name.node.as_str();
    match type_beneath(reader.rooted, object, name) {
        None => Ok(true),
        Some(ty) => add_in_type(alloc, reader, left, ty, group, walked),
    }
}

/// Tells the conflicts in the sets of a group, on each object of a type.
#[cycle(walk)]
fn add_in_type<'a>(
    alloc: Global,
    reader: &Reader<'a>,
    left: usize,
    ty: &'a str,
    group: &Group<'a>,
    walked: &mut Walked<'a>,
) -> Made<bool>
    ensures { IfOk result (λ clean. GroupNests reader.entry.now group.entry.now
        → Walks reader.entry.now
        (type_tells reader.entry.now left ty.entry.now (own_selections (united group.entry.now)))
        clean walked.old walked.new) }
{
    let found = merged_of(alloc, reader, left, ty, group)?;
    match found {
        None => add_on_objects(alloc, reader, left, ty, group, walked),
        Some(merged) => add_merged(alloc, reader, left, merged, group, walked),
    }
}

/// Tells the conflicts in the merged set of a group, unless they are told already.
#[cycle(walk)]
fn add_merged<'a>(
    alloc: Global,
    reader: &Reader<'a>,
    left: usize,
    merged: Merged<'a>,
    group: &Group<'a>,
    walked: &mut Walked<'a>,
) -> Made<bool>
    ensures { IfOk result (λ clean.
        (ty : List ℕ) → IsMergedOf reader.entry.now left ty group.entry.now merged.entry
        → GroupNests reader.entry.now group.entry.now → Walks reader.entry.now
        (type_tells reader.entry.now left ty (own_selections (united group.entry.now)))
        clean walked.old walked.new) }
{
    if let Some(clean) = walked.answer(&merged) {
        return Ok(clean);
    }
    if walked.passes(&merged) {
        walked.note(merged)?;
        return Ok(true);
    }
    let clean = add_on_objects(alloc, reader, left, merged.ty, group, walked)?;
    walked.remember(merged, clean)?;
    Ok(clean)
}

/// Tells the conflicts in the sets of a group, on each object of a type, whether they are told
/// already or not.
#[cycle(walk)]
fn add_on_objects<'a>(
    alloc: Global,
    reader: &Reader<'a>,
    left: usize,
    ty: &str,
    group: &Group<'a>,
    walked: &mut Walked<'a>,
) -> Made<bool>
    ensures { IfOk result (λ clean. GroupNests reader.entry.now group.entry.now
        → Walks reader.entry.now
        (type_tells reader.entry.now left ty.now (own_selections (united group.entry.now)))
        clean walked.old walked.new) }
{
    let objects = reader.rooted.types.possible(alloc, ty)?;
    add_on_each(alloc, reader, left, &objects, group, walked)
}

/// Tells the conflicts in the sets of a group on each of some objects.
#[cycle(walk)]
fn add_on_each<'a>(
    alloc: Global,
    reader: &Reader<'a>,
    left: usize,
    objects: &NameSet,
    group: &Group<'a>,
    walked: &mut Walked<'a>,
) -> Made<bool>
    ensures { IfOk result (λ clean. GroupNests reader.entry.now group.entry.now
        → Walks reader.entry.now
        (flat_map (set_tells reader.entry.now left (own_selections (united group.entry.now)))
        objects.now)
        clean walked.old walked.new) }
{
    let mut clean = true;
    for place in 0..objects.len() {
        clean &= add_on_object(alloc, reader, left, objects.at(place), group, walked)?;
    }
    Ok(clean)
}

/// Tells the conflicts in the sets of a group on an object, and under them.
#[cycle(walk)]
fn add_on_object<'a>(
    alloc: Global,
    reader: &Reader<'a>,
    left: usize,
    object: &str,
    group: &Group<'a>,
    walked: &mut Walked<'a>,
) -> Made<bool>
    ensures { IfOk result (λ clean. GroupNests reader.entry.now group.entry.now
        → Walks reader.entry.now
        (set_tells reader.entry.now left (own_selections (united group.entry.now)) object.now)
        clean walked.old walked.new) }
{
    if left == 0 {
        return Ok(true);
    }
    let fields = fields_beneath(alloc, reader, object, group)?;
    add_among(alloc, reader, left - 1, object, fields.as_slice(), walked)
}

/// Adds what is told of an occurrence that doesn't ask the same, if there is one. True where there
/// is none.
fn add_unlike(
    alloc: Global,
    unlike: Option<&Positioned<Field>>,
    found: &mut Items<Conflict>,
) -> Made<bool>
    ensures told { OnOk result (found.new ≡ found.old ++ told_of unlike.entry) }
    ensures clean { IfOk result (λ clean. clean ≡ is_nothing (told_of unlike.entry)) }
{
    match unlike {
        None => Ok(true),
        Some(field) => {
            let conflict = conflict_of(alloc, field)?;
            found.push(conflict)?;
            Ok(false)
        }
    }
}

/// What is told of an occurrence.
fn conflict_of(alloc: Global, field: &Positioned<Field>) -> Made<Conflict>
    ensures { IfOk result (λ conflict. conflict ≡ told field.now) }
{
    let key = field.node.response_key().node.text();
    Ok(Conflict {
        pos: field.pos,
        key: key.try_clone(alloc)?,
    })
}
