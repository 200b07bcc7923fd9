//! The sets under fields, as the walks for the limits enter them.
ghost use Rattle.std.specs.Prelude.{◌≡◌};
ghost use Rattle.std.specs.Option.{option_copied};
ghost use Rattle.gql_doc.specs.Depth.{field_set, if_any, selections_of};

use gql_doc::{Field, Positioned, SelectionSet};

/// The set of a field, unless it is empty.
#[tactic(auto, using(crate::proofs::WalkLemmas::if_some))]
pub fn set_beneath_field(field: &Positioned<Field>) -> Option<&Positioned<SelectionSet>>
    ensures { option_copied result
        ≡ if_any (selections_of (field_set field.now)) (field_set field.now) }
{
    let set = &field.node.selection_set;
    if set.node.items.is_empty() {
        None
    } else {
        Some(set)
    }
}
