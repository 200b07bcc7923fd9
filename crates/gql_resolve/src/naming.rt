//! Fields of a name under others.
ghost use Rattle.std.specs.Prelude.{◌≡◌, ◌++◌, ◌∷◌, [], OnOk};
ghost use Rattle.gql_resolve.specs.Beneath.{fields_beneath, named};
ghost use Rattle.gql_resolve.specs.SelectionField.{all_seen, seen_of};

use crate::selection_field::SelectionField;
use gql_base::{Items, Made};
use std::alloc::Global;

/// Adds the fields of a name that stand under a field.
pub(crate) fn add_named<'a>(
    alloc: Global,
    found: &mut Items<SelectionField<'a>>,
    field: &SelectionField<'a>,
    name: &str,
) -> Made<()>
    ensures { OnOk result (all_seen found.new ≡ all_seen found.old
        ++ named name.now (fields_beneath (seen_of field.entry.now))) }
{
    let mut beneath = field.selection_set(alloc)?;
    while let Some(inner) = beneath.next()? {
        add_if_named(found, inner, name)?;
    }
    Ok(())
}

/// Adds a field, if it has the name.
fn add_if_named<'a>(
    found: &mut Items<SelectionField<'a>>,
    field: SelectionField<'a>,
    name: &str,
) -> Made<()>
    ensures { OnOk result (all_seen found.new ≡ all_seen found.old
        ++ named name.now (seen_of field.entry ∷ [])) }
{
    if field.name() == name {
        found.push(field)
    } else {
        Ok(())
    }
}
