ghost use Rattle.std.specs.Prelude.{◌≡◌, [], IfOk};

use crate::name_set::NameSet;
use crate::named::Named;
use crate::same::Same;
use gql_base::{Copied, Made, Name};
use std::alloc::Global;

/// A union (GraphQL, October 2021, section 3.8): its name, and the names of its members.
#[derive(Debug, Drop)]
pub struct Union {
    name: Name,
    members: NameSet,
}

impl Union {
    ghost use Rattle.gql_schema.specs.Union.{union_name, members_of, new_union, with_member};

    /// A union without members.
    pub fn new(alloc: Global, name: &str) -> Made<Union>
        ensures name { IfOk result (λ union_type. union_name union_type ≡ name.now) }
        ensures members { IfOk result (λ union_type. members_of union_type ≡ []) }
    {
        Ok(Union::with_name(alloc, Name::new(alloc, name)?))
    }

    /// A union without members, which takes the name.
    pub fn with_name(alloc: Global, name: Name) -> Union
        ensures name { union_name result ≡ name }
        ensures members { members_of result ≡ [] }
    {
        Union {
            name,
            members: NameSet::new(alloc),
        }
    }

    /// A union of these members, which takes the name.
    pub fn with_members(name: Name, members: NameSet) -> Union
        ensures { result ≡ new_union name members }
    {
        Union { name, members }
    }

    /// This union with one more member. A second one of a name changes nothing.
    pub fn possible_type(self, alloc: Global, name: &str) -> Made<Union>
        ensures { IfOk result (λ union_type. union_type ≡ with_member self name.now) }
    {
        let mut union_type = self;
        union_type.members.add(Name::new(alloc, name)?)?;
        Ok(union_type)
    }

    /// The name of the type.
    pub fn type_name(&self) -> &str
        ensures { result.now ≡ union_name self.now }
    {
        self.name.as_str()
    }

    /// The names of the members, in the order in which they were added.
    pub fn members(&self) -> &NameSet
        ensures { result.now ≡ members_of self.now }
    {
        &self.members
    }
}

impl Named for Union {
    ghost use Rattle.gql_schema.specs.Union.{union_name};

    ghost name_of = { union_name };

    fn own_name(&self) -> &str {
        self.type_name()
    }
}

impl Copied for Union {
    fn try_clone(&self, alloc: Global) -> Made<Union> {
        Ok(Union {
            name: self.name.try_clone(alloc)?,
            members: self.members.try_clone(alloc)?,
        })
    }
}

impl Same for Union {
    fn same(&self, other: &Union) -> bool {
        self.name == other.name && self.members.same(&other.members)
    }
}
