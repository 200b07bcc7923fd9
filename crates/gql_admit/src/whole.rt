//! Sets in which no selection has a directive. `@skip` and `@include` leave them as they are, so
//! that nothing of them is moved (GraphQL, October 2021, section 6.3.2).
ghost use Rattle.std.specs.Prelude.{IsTrue};
ghost use Rattle.gql_admit.specs.Whole.{AreWhole, IsSetWhole, IsWhole};

use gql_doc::{Positioned, Selection, SelectionSet};

/// Whether no selection of a set has a directive, at any depth.
#[cycle(whole)]
pub(crate) fn is_set_whole(set: &SelectionSet) -> bool
    ensures { IsTrue result → IsSetWhole set.now }
{
    are_whole(set.items.as_slice())
}

/// The same of some selections.
#[cycle(whole)]
fn are_whole(selections: &[Positioned<Selection>]) -> bool
    ensures { IsTrue result → AreWhole selections.now }
{
    for selection in selections {
        if !is_whole(&selection.node) {
            return false;
        }
    }
    true
}

/// The same of a selection with what stands beneath it.
#[cycle(whole)]
fn is_whole(selection: &Selection) -> bool
    ensures { IsTrue result → IsWhole selection.now }
{
    match selection {
        Selection::Field(field) => {
            field.node.directives.is_empty() && is_set_whole(&field.node.selection_set.node)
        }
        Selection::FragmentSpread(spread) => spread.node.directives.is_empty(),
        Selection::InlineFragment(inline) => {
            inline.node.directives.is_empty() && is_set_whole(&inline.node.selection_set.node)
        }
    }
}
