ghost use Rattle.std.specs.Prelude.{◌≡◌, ◌↔◌, IsTrue, MatchOption, MatchResult, None, Some, []};
ghost use Rattle.std.specs.Prelude.{length};
ghost use Rattle.gql_base.specs.Pairs.{names_of, under, values_of};
ghost use Rattle.gql_input.specs.Accessor.{value_behind, members_behind};
ghost use Rattle.gql_input.specs.Iterators.{keys_left, members_left, values_left};

use crate::access_fault::AccessFault;
use crate::iterators::{Keys, Members, Values};
use crate::value_accessor::ValueAccessor;
use gql_base::{Pairs, Value};

/// The members of one object, in their order.
#[derive(Clone, Copy)]
pub struct ObjectAccessor<'a> {
    members: &'a Pairs<Value>,
}

impl<'a> ObjectAccessor<'a> {
    /// An accessor of members, as of an object or of a field's arguments.
    pub fn new(members: &'a Pairs<Value>) -> ObjectAccessor<'a>
        ensures { members_behind result ≡ members.now }
    {
        ObjectAccessor { members }
    }

    /// The members.
    pub fn as_index_map(&self) -> &'a Pairs<Value>
        ensures { result.now ≡ members_behind self.now }
    {
        self.members
    }

    /// The value of the member of this name, or none where there is none.
    pub fn get(&self, name: &str) -> Option<ValueAccessor<'a>>
        ensures { MatchOption result (under name.now (members_behind self.now) ≡ None)
            (λ found. under name.now (members_behind self.now) ≡ Some (value_behind found)) }
    {
        let value = self.members.get(name)?;
        Some(ValueAccessor::new(value))
    }

    /// The value of the member of this name; the fault tells the name where there is none.
    pub fn try_get<'k>(&self, name: &'k str) -> Result<ValueAccessor<'a>, AccessFault<'k>>
        ensures { MatchResult result (λ found. under name.now (members_behind self.now)
            ≡ Some (value_behind found))
            (λ fault. (fault ≡ AccessFault.NoKey name.entry)
            × (under name.now (members_behind self.now) ≡ None)) }
    {
        match self.get(name) {
            Some(found) => Ok(found),
            None => Err(AccessFault::NoKey(name)),
        }
    }

    /// The members in their order, each its name and its value.
    pub fn iter(&self) -> Members<'a>
        ensures { members_left result ≡ members_behind self.now }
    {
        Members::new(self.members)
    }

    /// The names of the members, in their order.
    pub fn keys(&self) -> Keys<'a>
        ensures { keys_left result ≡ names_of (members_behind self.now) }
    {
        Keys::new(self.members)
    }

    /// The values of the members, in their order.
    pub fn values(&self) -> Values<'a>
        ensures { values_left result ≡ values_of (members_behind self.now) }
    {
        Values::new(self.members)
    }

    /// The number of members.
    pub fn len(&self) -> usize
        ensures { result ≡ length (members_behind self.now) }
    {
        self.members.len()
    }

    /// True exactly where there is no member.
    pub fn is_empty(&self) -> bool
        ensures { IsTrue result ↔ (members_behind self.now ≡ []) }
    {
        self.members.len() == 0
    }
}
