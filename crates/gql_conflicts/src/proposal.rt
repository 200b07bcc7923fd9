//! The classes of sets that the coarse test is to test.
ghost use Rattle.std.specs.Prelude.{◌≡◌, IfSome, slice_get};
ghost use Rattle.std.specs.List.{Contains};

use crate::entry::Entry;

/// Classes that are proposed for the sets of a document: of the fragments by their places, and of
/// the operations in their order; the entries of all classes; and for each field, in the order of a
/// walk through fragments and operations, the place of its entry.
#[derive(Drop)]
pub(crate) struct Proposal<'a> {
    pub classes: Vec<usize>,
    pub roots: Vec<usize>,
    pub entries: Vec<Entry<'a>>,
    pub hints: Vec<usize>,
}

impl<'a> Proposal<'a> {
    /// The class that is proposed for the fragment at a place, if any.
    pub(crate) fn class_of(&self, place: usize) -> Option<usize>
        ensures { result ≡ slice_get self.now.classes.items place }
    {
        match self.classes.get(place) {
            Some(class) => Some(*class),
            None => None,
        }
    }

    /// The class that is proposed for the operation at a place, if any.
    pub(crate) fn root_of(&self, place: usize) -> Option<usize> {
        match self.roots.get(place) {
            Some(class) => Some(*class),
            None => None,
        }
    }

    /// The entry that is proposed for the next field, if any.
    pub(crate) fn hinted(&self, next: &mut usize) -> Option<Entry<'a>>
        ensures { IfSome result (λ entry. Contains self.now.entries.items entry) }
    {
        let hint = self.next_hint(next)?;
        match self.entries.get(hint) {
            Some(entry) => Some(*entry),
            None => None,
        }
    }

    fn next_hint(&self, next: &mut usize) -> Option<usize> {
        let hint = *self.hints.get(*next)?;
        *next += 1;
        Some(hint)
    }
}
