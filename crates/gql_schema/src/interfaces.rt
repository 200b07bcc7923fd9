ghost use Rattle.std.specs.Prelude.{◌≡◌, [], IfOk};
ghost use Rattle.gql_schema.specs.NameSet.{is_among, with_name};

use crate::name_set::NameSet;
use crate::same::Same;
use gql_base::{Copied, Items, Made, Name};
use std::alloc::Global;
use std::marker::Model;

/// The names of the interfaces that an object implements, none twice: a slice in order, beside a
/// set that finds them. Contracts see the list of the names.
#[derive(Debug, Drop)]
pub struct Interfaces {
    list: Items<Name>,
    set: NameSet,
}

impl Model for Interfaces {
    ghost use Rattle.std.specs.Prelude.{List, ℕ, ◌≡◌};
    ghost use Rattle.std.specs.Coded.{coded_list, coded_ℕ};

    ghost Value = { List (List ℕ) };

    ghost coded = { coded_list (coded_list coded_ℕ) };

    ghost view = { λ interfaces. interfaces.list };

    ghost invariant = { λ interfaces. interfaces.set ≡ interfaces.list };
}

impl Interfaces {
    /// No name, which takes no memory.
    pub fn new(alloc: Global) -> Interfaces
        ensures { result ≡ [] }
    {
        Interfaces {
            list: Items::new(alloc),
            set: NameSet::new(alloc),
        }
    }

    /// The names in order.
    pub fn as_slice(&self) -> &[Name]
        ensures { result.now ≡ self.now }
    {
        self.list.as_slice()
    }

    /// True exactly where the name is among these.
    pub fn has(&self, name: &str) -> bool
        ensures { result ≡ is_among name.now self.now }
    {
        // (reading the field shows the invariant: the set has the names of the list)
        let _list = &self.list;
        self.set.has(name)
    }

    /// These names with one more at the end. One that is there changes nothing.
    pub fn with(self, alloc: Global, name: &str) -> Made<Interfaces>
        ensures { IfOk result (λ interfaces. interfaces ≡ with_name self name.now) }
    {
        if self.has(name) {
            return Ok(self);
        }
        let Interfaces { mut list, mut set } = self;
        list.push(Name::new(alloc, name)?)?;
        set.add_fresh(Name::new(alloc, name)?)?;
        Ok(Interfaces { list, set })
    }
}

impl Copied for Interfaces {
    fn try_clone(&self, alloc: Global) -> Made<Interfaces> {
        let list = self.list.try_clone(alloc)?;
        let set = self.set.try_clone(alloc)?;
        Ok(Interfaces { list, set })
    }
}

impl Same for Interfaces {
    fn same(&self, other: &Interfaces) -> bool {
        self.list.same(&other.list)
    }
}
