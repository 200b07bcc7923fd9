ghost use Rattle.std.specs.Prelude.{◌≡◌, [], ◌∷◌, IfOk, MatchOption};

use crate::copied::Copied;
use crate::items::Items;
use crate::made::Made;
use crate::path_segment::PathSegment;
use std::alloc::Global;
use std::marker::Model;

/// A place in a JSON value. Contracts see the list of the steps to it, from outside.
#[derive(Debug, Drop)]
pub struct JsonPlace {
    /// The same steps, from inside.
    inward: Items<PathSegment>,
}

impl Model for JsonPlace {
    ghost use Rattle.std.specs.Prelude.{List, reverse};
    ghost use Rattle.std.specs.Coded.{coded_list};
    ghost use Rattle.gql_base.specs.declared.path_segment.PathSegment.{PathSegment};
    ghost use Rattle.gql_base.specs.contracts.path_segment.PathSegment.{the_row};

    ghost Value = { List PathSegment };

    ghost coded = { coded_list the_row.coded };

    ghost view = { λ place. reverse place.inward };
}

impl JsonPlace {
    /// The whole value, which takes no memory.
    pub fn here(alloc: Global) -> JsonPlace
        ensures { result ≡ [] }
    {
        JsonPlace {
            inward: Items::new(alloc),
        }
    }

    /// This place, seen from before one more step.
    pub fn behind(self, step: PathSegment) -> Made<JsonPlace>
        ensures { IfOk result (λ place. place ≡ step ∷ self) }
    {
        let JsonPlace { mut inward } = self;
        inward.push(step)?;
        Ok(JsonPlace { inward })
    }

    /// Takes the outermost step off, or answers none where there is none.
    pub fn next_step(&mut self) -> Option<PathSegment>
        ensures { MatchOption result ((self.old ≡ [])
            × (self.new ≡ [])) (λ step. self.old ≡ step ∷ self.new) }
    {
        self.inward.pop()
    }
}

impl Copied for JsonPlace {
    fn try_clone(&self, alloc: Global) -> Made<JsonPlace> {
        Ok(JsonPlace {
            inward: self.inward.try_clone(alloc)?,
        })
    }
}
