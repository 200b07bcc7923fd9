//! Merged sets as they are looked up: the sets of a key's occurrences by their numbers.
ghost use Rattle.std.specs.Prelude.{◌++◌, IfOk, IsTrue};
ghost use Rattle.std.specs.Option.{IfSome};
ghost use Rattle.gql_select.specs.Collected.{own_selections};
ghost use Rattle.gql_conflicts.specs.Groups.{united};
ghost use Rattle.gql_conflicts.specs.Merged.{IsMergedOf, known_by};
ghost use Rattle.gql_conflicts.specs.Sets.{HaveSame, sets_at};

use crate::beneath::is_leaf;
use crate::group::Group;
use crate::merged::Merged;
use crate::reader::Reader;
use gql_base::Made;
use gql_doc::{Field, Positioned};
use std::alloc::Global;

/// The merged set of a group, where the objects of a type are possible in it; none where a set has
/// no number.
pub(crate) fn merged_of<'a>(
    alloc: Global,
    reader: &Reader<'a>,
    left: usize,
    ty: &'a str,
    group: &Group<'a>,
) -> Made<Option<Merged<'a>>>
    ensures { IfOk result (λ merged. IfSome merged
        (IsMergedOf reader.entry.now left ty.entry.now group.entry.now)) }
{
    let found = numbers_of(alloc, reader, group)?;
    match found {
        None => Ok(None),
        Some(sets) => Ok(Some(Merged { left, ty, sets })),
    }
}

/// The numbers of the sets of a group.
fn numbers_of<'a>(alloc: Global, reader: &Reader<'a>, group: &Group<'a>) -> Made<Option<Vec<usize>>>
    ensures { IfOk result (λ numbers. IfSome numbers (λ found.
        HaveSame (sets_at (known_by reader.entry.now) found.items)
        (own_selections (united group.entry.now)))) }
{
    let mut numbers = Vec::new(alloc);
    if !add_number(reader, group.first.field(), &mut numbers)? {
        return Ok(None);
    }
    for occurrence in group.more.as_slice() {
        if !add_number(reader, occurrence, &mut numbers)? {
            return Ok(None);
        }
    }
    Ok(Some(numbers))
}

/// Adds the number of a field's set, if it has one. False where it has no number.
fn add_number(
    reader: &Reader<'_>,
    field: &Positioned<Field>,
    numbers: &mut Vec<usize>,
) -> Made<bool>
    ensures { IfOk result (λ known. IsTrue known → HaveSame
        (sets_at (known_by reader.now) numbers.new.items)
        (sets_at (known_by reader.now) numbers.old.items ++ own_selections field.now)) }
{
    if is_leaf(field) {
        return Ok(true);
    }
    let Some(number) = reader.sets.number_of(reader.fragments, field) else {
        return Ok(false);
    };
    numbers.push(number)?;
    Ok(true)
}
