ghost use Rattle.std.specs.Prelude.{◌≡◌};
ghost use Rattle.gql_schema.specs.SchemaRule.{number_of};

use gql_base::{Copied, Made};
use std::alloc::Global;

/// A rule of a table of types, as it is told where it is broken.
#[derive(Clone, Copy, Debug)]
pub enum SchemaRule {
    /// The type of a name isn't there.
    NotFound,
    /// A type stands where its kind can't.
    Misplaced,
    /// A type is a non-null of a non-null.
    DoublyNonNull,
    /// A field of an input object with exactly one member isn't nullable, or has a default.
    NotOptional,
    /// An object lacks what an interface promises.
    Unsatisfied,
    /// A member of a union is no object.
    NoObject,
    /// An input object contains itself.
    ContainsItself,
    /// The name of a type isn't supported.
    Unsupported,
    /// A default doesn't fit its type.
    Unfit,
}

impl SchemaRule {
    /// The number by which a refusal tells the rule.
    pub fn number(self) -> u8
        ensures { result ≡ number_of self }
    {
        match self {
            SchemaRule::NotFound => 1,
            SchemaRule::Misplaced => 2,
            SchemaRule::DoublyNonNull => 3,
            SchemaRule::NotOptional => 4,
            SchemaRule::Unsatisfied => 5,
            SchemaRule::NoObject => 6,
            SchemaRule::ContainsItself => 7,
            SchemaRule::Unsupported => 8,
            SchemaRule::Unfit => 9,
        }
    }
}

impl Copied for SchemaRule {
    fn try_clone(&self, _alloc: Global) -> Made<SchemaRule> {
        Ok(*self)
    }
}
