ghost use Rattle.std.specs.Prelude.{◌≡◌, ◌<◌, [], length, IfOk, OnErr};

use crate::open_set::OpenSet;
use crate::selection_field::SelectionField;
use crate::stepping::Step;
use crate::walking::step;
use gql_base::{Items, Made};
use std::alloc::Global;

/// The fields of a field's set, one after another, in document order, through fragments in place
/// and known spreads. No set is copied.
#[derive(Drop)]
pub struct SelectionFieldsIter<'a> {
    pub(crate) sets: Items<OpenSet<'a>>,
}

impl<'a> SelectionFieldsIter<'a> {
    ghost use Rattle.gql_resolve.specs.OpenSets.{Advances, TakesFirst, within};
    ghost use Rattle.gql_resolve.specs.SelectionFields.{fields_left};

    /// The fields of one open set.
    pub(crate) fn of(alloc: Global, set: OpenSet<'a>) -> Made<SelectionFieldsIter<'a>>
        ensures { IfOk result (λ fields. fields_left fields ≡ within set.entry) }
    {
        let mut sets = Items::new(alloc);
        sets.push(set)?;
        Ok(SelectionFieldsIter { sets })
    }

    /// The next field, or none where all are given. Where memory runs out, no field is lost.
    pub fn next(&mut self) -> Made<Option<SelectionField<'a>>>
        ensures ok { IfOk result
            (λ given. TakesFirst (fields_left self.old) given (fields_left self.new)) }
        ensures err { OnErr result (fields_left self.new ≡ fields_left self.old) }
    {
        while !self.sets.is_empty() {
            if let Some(field) = self.advance()? {
                return Ok(Some(field));
            }
        }
        Ok(None)
    }

    /// Looks once at what is left of the innermost set.
    fn advance(&mut self) -> Made<Option<SelectionField<'a>>>
        requires { 0 < length self.old.sets }
        ensures { Advances self.old.sets result self.new.sets }
    {
        let place = self.sets.len() - 1;
        match step(self.sets.as_slice()[place]) {
            Step::Done => {
                self.sets.pop();
                Ok(None)
            }
            Step::Gives(field, rest) => {
                self.sets.set(place, rest);
                Ok(Some(field))
            }
            Step::Enters(inner, rest) => {
                self.sets.push(inner)?;
                self.sets.set(place, rest);
                Ok(None)
            }
            Step::Passes(rest) => {
                self.sets.set(place, rest);
                Ok(None)
            }
        }
    }
}
