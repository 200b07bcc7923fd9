//! What stands under a field: the type of the objects there, and the fields of each in the sets of
//! all occurrences of the field's key.
ghost use Rattle.std.specs.Prelude.{◌≡◌, [], IfOk, IsTrue};
ghost use Rattle.std.specs.Option.{option_copied};
ghost use Rattle.gql_select.specs.Collected.{own_selections};
ghost use Rattle.gql_select.specs.Behind.{all_behind};
ghost use Rattle.gql_conflicts.specs.Groups.{united};
ghost use Rattle.gql_conflicts.specs.Rooted.{is_entities, rooted_of, type_beneath};
ghost use Rattle.gql_conflicts.specs.Walk.{collected};

use crate::group::Group;
use crate::reader::Reader;
use crate::rooted_types::RootedTypes;
use gql_base::Made;
use gql_collect::{
    collect_fields, collect_merged_fields, collect_once_fields, collect_once_merged_fields,
};
use gql_doc::{Field, Positioned, Selection};
use std::alloc::Global;

/// The innermost type of the field of a name on an object, where the field is known.
pub(crate) fn type_beneath<'a>(
    rooted: &RootedTypes<'a>,
    object: &str,
    name: &str,
) -> Option<&'a str>
    ensures { option_copied result ≡ type_beneath (rooted_of rooted.entry.now) object.now name.now }
{
    if is_entities(rooted, object, name) {
        return Some("_Entity");
    }
    match rooted.types.field(object, name) {
        None => None,
        Some(declared) => Some(declared.ty.type_name()),
    }
}

/// True exactly where it is the field `_entities` of the query root, and entities are on.
fn is_entities(rooted: &RootedTypes<'_>, object: &str, name: &str) -> bool
    ensures { result ≡ is_entities (rooted_of rooted.now) object.now name.now }
{
    rooted.entities && (name == "_entities" && object == rooted.query)
}

/// The fields of an object in selections, as the reader collects them.
pub(crate) fn fields_in<'a>(
    alloc: Global,
    reader: &Reader<'a>,
    object: &str,
    selections: &'a [Positioned<Selection>],
) -> Made<Vec<&'a Positioned<Field>>>
    ensures { IfOk result (λ fields. all_behind fields.items
        ≡ collected reader.entry.now object.now selections.entry.now) }
{
    let read_by = reader.collector();
    if reader.once {
        collect_once_fields(alloc, &read_by, object, selections)
    } else {
        collect_fields(alloc, &read_by, object, selections)
    }
}

/// The fields of an object in the sets of all occurrences of a group.
pub(crate) fn fields_beneath<'a>(
    alloc: Global,
    reader: &Reader<'a>,
    object: &str,
    group: &Group<'a>,
) -> Made<Vec<&'a Positioned<Field>>>
    ensures { IfOk result (λ fields. all_behind fields.items
        ≡ collected reader.entry.now object.now (own_selections (united group.entry.now))) }
{
    let first = group.first.field();
    let more = group.more.as_slice();
    let read_by = reader.collector();
    if reader.once {
        collect_once_merged_fields(alloc, &read_by, object, first, more)
    } else {
        collect_merged_fields(alloc, &read_by, object, first, more)
    }
}

/// True only where no occurrence of a group has a set.
#[tactic(auto, using(crate::proofs::WalkLemmas::none_more, crate::proofs::WalkLemmas::none_passed))]
pub(crate) fn has_no_set(group: &Group<'_>) -> bool
    ensures { IsTrue result → own_selections (united group.now) ≡ [] }
{
    if !is_leaf(group.first.field()) {
        return false;
    }
    for occurrence in group.more.as_slice() {
        if !is_leaf(occurrence) {
            return false;
        }
    }
    true
}

/// True only where a field has no set.
pub(crate) fn is_leaf(field: &Positioned<Field>) -> bool
    ensures { IsTrue result → own_selections field.now ≡ [] }
{
    field.node.selection_set.node.items.is_empty()
}
