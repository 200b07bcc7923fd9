ghost use Rattle.std.specs.Prelude.{◌≡◌, [], IfOk};

use crate::name_set::NameSet;
use crate::named::Named;
use crate::same::Same;
use gql_base::{Copied, Made, Name};
use std::alloc::Global;

/// An enum (GraphQL, October 2021, section 3.9): its name, and the names of its items.
#[derive(Debug, Drop)]
pub struct Enum {
    name: Name,
    items: NameSet,
}

impl Enum {
    ghost use Rattle.gql_schema.specs.Enum.{enum_name, items_of, with_item};

    /// An enum without items.
    pub fn new(alloc: Global, name: &str) -> Made<Enum>
        ensures name { IfOk result (λ enum_type. enum_name enum_type ≡ name.now) }
        ensures items { IfOk result (λ enum_type. items_of enum_type ≡ []) }
    {
        Ok(Enum::with_name(alloc, Name::new(alloc, name)?))
    }

    /// An enum without items, which takes the name.
    pub fn with_name(alloc: Global, name: Name) -> Enum
        ensures name { enum_name result ≡ name }
        ensures items { items_of result ≡ [] }
    {
        Enum {
            name,
            items: NameSet::new(alloc),
        }
    }

    /// This enum with one more item. A second one of a name changes nothing.
    pub fn item(self, alloc: Global, name: &str) -> Made<Enum>
        ensures { IfOk result (λ enum_type. enum_type ≡ with_item self name.now) }
    {
        let mut enum_type = self;
        enum_type.items.add(Name::new(alloc, name)?)?;
        Ok(enum_type)
    }

    /// The name of the type.
    pub fn type_name(&self) -> &str
        ensures { result.now ≡ enum_name self.now }
    {
        self.name.as_str()
    }

    /// The names of the items, in the order in which they were added.
    pub fn items(&self) -> &NameSet
        ensures { result.now ≡ items_of self.now }
    {
        &self.items
    }
}

impl Named for Enum {
    ghost use Rattle.gql_schema.specs.Enum.{enum_name};

    ghost name_of = { enum_name };

    fn own_name(&self) -> &str {
        self.type_name()
    }
}

impl Copied for Enum {
    fn try_clone(&self, alloc: Global) -> Made<Enum> {
        Ok(Enum {
            name: self.name.try_clone(alloc)?,
            items: self.items.try_clone(alloc)?,
        })
    }
}

impl Same for Enum {
    fn same(&self, other: &Enum) -> bool {
        self.name == other.name && self.items.same(&other.items)
    }
}
