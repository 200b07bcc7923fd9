ghost use Rattle.std.specs.Prelude.{◌≡◌, ◌↔◌, IsTrue};

use crate::copied::Copied;
use crate::made::Made;
use crate::text::Text;
use std::alloc::Global;
use std::fmt;

/// One step of the path to a place in a response (GraphQL, October 2021, section 7.1.2).
#[derive(Debug, Drop)]
pub enum PathSegment {
    /// The response key of a field.
    Field(Text),
    /// The place of an item in its list, counted from 0.
    Index(usize),
}

impl Copied for PathSegment {
    fn try_clone(&self, alloc: Global) -> Made<PathSegment> {
        match self {
            PathSegment::Field(name) => Ok(PathSegment::Field(name.try_clone(alloc)?)),
            PathSegment::Index(place) => Ok(PathSegment::Index(*place)),
        }
    }
}

impl PartialEq for PathSegment {
    ghost use Rattle.std.specs.Prelude.{◌≡◌, ◌↔◌, IsTrue};
    ghost use Rattle.gql_base.specs.Same.{is_same, is_same_laws};
    ghost use Rattle.gql_base.specs.contracts.path_segment.PathSegment.{the_row};

    ghost eq = { is_same the_row.coded };

    ghost laws = { is_same_laws the_row.coded };

    fn eq(&self, other: &PathSegment) -> bool
        ensures value { result ≡ is_same the_row.coded self.now other.now }
        ensures decides { IsTrue result ↔ (self.now ≡ other.now) }
    {
        same_segment(self, other)
    }
}

impl Eq for PathSegment {
    ghost use Rattle.gql_base.specs.Same.{is_same_equivalence};
    ghost use Rattle.gql_base.specs.contracts.path_segment.PathSegment.{the_row};

    ghost laws = { is_same_equivalence the_row.coded };
}

fn same_segment(a: &PathSegment, b: &PathSegment) -> bool
    ensures { IsTrue result ↔ (a.now ≡ b.now) }
{
    match (a, b) {
        (PathSegment::Field(x), PathSegment::Field(y)) => x == y,
        (PathSegment::Index(x), PathSegment::Index(y)) => *x == *y,
        _ => false,
    }
}

/// The key of a field as it is, and a place as a number.
impl fmt::Display for PathSegment {
    ghost use Rattle.std.specs.Prelude.{Some};
    ghost use Rattle.gql_base.specs.PathSegment.{segment_text};

    ghost output = { λ segment. Some (segment_text segment) };

    fn fmt<W: fmt::Write>(&self, f: &mut fmt::Formatter<W>) -> fmt::Result {
        match self {
            PathSegment::Field(name) => f.write_str(name.as_str()),
            PathSegment::Index(place) => write!(f, "{place}"),
        }
    }
}
