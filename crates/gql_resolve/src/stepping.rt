use crate::open_set::OpenSet;
use crate::selection_field::SelectionField;

/// What one look at selections gives.
#[derive(Drop)]
pub(crate) enum Step<'a> {
    /// None is left.
    Done,
    /// A field, and what is left after it.
    Gives(SelectionField<'a>, OpenSet<'a>),
    /// A set that is to be gone through first, and what is left after it.
    Enters(OpenSet<'a>, OpenSet<'a>),
    /// No field, and what is left.
    Passes(OpenSet<'a>),
}
