//! One merged set that the exact walk has been through.
use crate::merged::Merged;

/// A merged set that was walked through, and whether it told nothing; and the place of the visit
/// before it that has the same mark, if any.
#[derive(Drop)]
pub(crate) struct Visit<'a> {
    pub merged: Merged<'a>,
    pub clean: bool,
    pub before: Option<usize>,
}
