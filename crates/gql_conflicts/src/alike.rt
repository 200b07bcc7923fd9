//! Which fields ask the same (GraphQL, October 2021, section 5.3.2).
ghost use Rattle.std.specs.Prelude.{◌≡◌, IfOk};
ghost use Rattle.gql_select.specs.Alike.{alike};

use gql_base::Made;
use gql_doc::{Field, Positioned};
use gql_select::same_arguments;
use std::alloc::Global;

/// True exactly where two fields ask the same: they have one name, and the same arguments.
pub(crate) fn alike(alloc: Global, one: &Positioned<Field>, other: &Positioned<Field>) -> Made<bool>
    ensures { IfOk result (λ same. same ≡ alike one.now other.now) }
{
    if one.node.name.node.as_str() != other.node.name.node.as_str() {
        return Ok(false);
    }
    same_arguments(
        alloc,
        one.node.arguments.as_slice(),
        other.node.arguments.as_slice(),
    )
}
