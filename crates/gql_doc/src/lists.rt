ghost use Rattle.std.specs.Prelude.{◌≡◌, IfOk};
ghost use Rattle.gql_doc.specs.Drafts.{first_item};

use crate::draft::Draft;
use gql_base::{Items, Made};
use std::alloc::Global;

/// The list of one item.
pub fn list_of<T: Drop>(alloc: Global, item: Draft<T>) -> Made<Draft<Items<T>>>
    ensures { IfOk result (λ items. items ≡ first_item item) }
{
    let Draft { part, doubled } = item;
    let mut items = Items::with_capacity(alloc, 1)?;
    items.push(part)?;
    Ok(Draft {
        part: items,
        doubled,
    })
}
