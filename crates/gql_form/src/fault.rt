ghost use Rattle.std.specs.Prelude.{◌≡◌};

use gql_base::{JsonPlace, PathSegment, Text};
use std::alloc::{AllocError, Global};

/// Why reading stops.
#[derive(Drop)]
pub(crate) enum Fault {
    /// This place, as it is seen from where the reader stands.
    Bad(JsonPlace),
    NoMemory,
}

impl From<AllocError> for Fault {
    ghost use Rattle.std.specs.Prelude.{◌≡◌};
    ghost use Rattle.gql_form.specs.declared.fault.Fault.TheVariants.{NoMemory};

    ghost from_gives = { λ _ fault. fault ≡ NoMemory };

    fn from(_error: AllocError) -> Fault {
        Fault::NoMemory
    }
}

impl Fault {
    ghost use Rattle.gql_form.specs.Faults.{IsInside};

    /// This fault, seen from before the member of this name.
    pub(crate) fn in_member(self, alloc: Global, name: &str) -> Fault
        ensures { IsInside (PathSegment.Field name.now) self result }
    {
        match self {
            Fault::Bad(place) => match Text::new(alloc, name) {
                Ok(name) => Fault::Bad(place).behind(PathSegment::Field(name)),
                Err(_) => Fault::NoMemory,
            },
            Fault::NoMemory => Fault::NoMemory,
        }
    }

    /// This fault, seen from before the item at this place.
    pub(crate) fn in_item(self, place: usize) -> Fault
        ensures { IsInside (PathSegment.Index place) self result }
    {
        self.behind(PathSegment::Index(place))
    }

    fn behind(self, step: PathSegment) -> Fault
        ensures { IsInside step self result }
    {
        match self {
            Fault::Bad(place) => match place.behind(step) {
                Ok(outer) => Fault::Bad(outer),
                Err(_) => Fault::NoMemory,
            },
            Fault::NoMemory => Fault::NoMemory,
        }
    }
}
