//! Occurrences of fields in groups, one for each key.
ghost use Rattle.std.specs.Prelude.{◌≡◌, [], ◌∷◌, ◌++◌, List, IfOk, OnOk, length};
ghost use Rattle.gql_doc.specs.declared.document.Field.{Field as Occurrence};
ghost use Rattle.gql_doc.specs.declared.document.Positioned.{Positioned as Placed};
ghost use Rattle.gql_select.specs.Alike.{alike};
ghost use Rattle.gql_select.specs.Collected.{Setting};
ghost use Rattle.gql_select.specs.Behind.{all_behind};
ghost use Rattle.gql_conflicts.specs.Groups.{AreGroups, Grown, GroupsOf};

use crate::asked::Asked;
use crate::group::Group;
use gql_base::{Copied, Made, Pairs};
use gql_doc::{Field, Positioned};
use std::alloc::Global;

/// The groups of fields of one object, one for each key. They tell what the fields tell.
pub(crate) fn group_fields<'a>(
    alloc: Global,
    fields: &[&'a Positioned<Field>],
) -> Made<Vec<Group<'a>>>
    ensures { (setting : Setting) → IfOk result (λ groups.
        GroupsOf setting groups.items (all_behind fields.entry.now)) }
{
    let mut keys = Pairs::new(alloc);
    let mut groups = Vec::new(alloc);
    for field in fields {
        add_occurrence(alloc, &mut keys, &mut groups, field)?;
    }
    // (asking the number shows that no key is there twice)
    let _distinct = keys.len();
    Ok(groups)
}

/// Adds an occurrence to the group of its key, or as a group of its own after the others.
fn add_occurrence<'a>(
    alloc: Global,
    keys: &mut Pairs<()>,
    groups: &mut Vec<Group<'a>>,
    field: &'a Positioned<Field>,
) -> Made<()>
    requires { length groups.old.items ≡ length keys.old }
    ensures { OnOk result ((setting : Setting) (before : List (Placed Occurrence))
        → AreGroups setting keys.old groups.old.items before
        → AreGroups setting keys.new groups.new.items (before ++ field.entry.now ∷ [])) }
{
    let name = &field.node.response_key().node;
    let key = name.as_str();
    match keys.place_of(key) {
        Some(place) => add_to(alloc, &mut groups[place], field),
        None => {
            keys.add_fresh(name.try_clone(alloc)?, ())?;
            let first = Asked::new(alloc, field)?;
            groups.push(Group {
                first,
                more: Vec::new(alloc),
                unlike: None,
            })?;
            Ok(())
        }
    }
}

/// Adds an occurrence to a group: to those that ask the same, or as the first that doesn't.
fn add_to<'a>(alloc: Global, group: &mut Group<'a>, field: &'a Positioned<Field>) -> Made<()>
    ensures { OnOk result (Grown (alike group.old.first field.entry.now) field.entry group.old
        group.new) }
{
    if group.first.is_alike(alloc, field)? {
        group.more.push(field)?;
        return Ok(());
    }
    if group.unlike.is_none() {
        group.unlike = Some(field);
    }
    Ok(())
}
