//! What accessors give one after another.
ghost use Rattle.std.specs.Prelude.{◌≡◌};

use crate::value_accessor::ValueAccessor;
use gql_base::{Pairs, Value};

/// The members of an object in their order, each its name and its value.
#[derive(Clone, Copy)]
pub struct Members<'a> {
    members: &'a Pairs<Value>,
    place: usize,
}

impl<'a> Members<'a> {
    ghost use Rattle.gql_input.specs.Iterators.{members_left};

    /// All members, from the first on.
    pub fn new(members: &'a Pairs<Value>) -> Members<'a>
        ensures { members_left result ≡ members.now }
    {
        Members { members, place: 0 }
    }
}

impl<'a> Iterator for Members<'a> {
    type Item = (&'a str, ValueAccessor<'a>);

    ghost use Rattle.std.specs.Iterator.{YieldsFirstBy, item_count};
    ghost use Rattle.gql_input.specs.Accessor.{value_behind};
    ghost use Rattle.gql_input.specs.Iterators.{members_left};

    ghost next_gives = { YieldsFirstBy (λ member. (
      member.0.now,
      value_behind member.1,
    )) members_left };

    ghost remaining = { item_count members_left };

    #[tactic(auto, using(crate::proofs::LeftLemmas::none_left))]
    fn next(&mut self) -> Option<(&'a str, ValueAccessor<'a>)> {
        if self.place < self.members.len() {
            let (name, value) = self.members.at(self.place);
            self.place += 1;
            Some((name, ValueAccessor::new(value)))
        } else {
            None
        }
    }
}

/// The names of the members of an object, in their order.
#[derive(Clone, Copy)]
pub struct Keys<'a> {
    members: Members<'a>,
}

impl<'a> Keys<'a> {
    ghost use Rattle.gql_base.specs.Pairs.{names_of};
    ghost use Rattle.gql_input.specs.Iterators.{keys_left};

    /// All names, from the first on.
    pub fn new(members: &'a Pairs<Value>) -> Keys<'a>
        ensures { keys_left result ≡ names_of members.now }
    {
        Keys {
            members: Members::new(members),
        }
    }
}

impl<'a> Iterator for Keys<'a> {
    type Item = &'a str;

    ghost use Rattle.std.specs.Iterator.{YieldsFirstRef, item_count};
    ghost use Rattle.gql_input.specs.Iterators.{keys_left};

    ghost next_gives = { YieldsFirstRef keys_left };

    ghost remaining = { item_count keys_left };

    fn next(&mut self) -> Option<&'a str> {
        match self.members.next() {
            Some((name, _)) => Some(name),
            None => None,
        }
    }
}

/// The values of the members of an object, in their order.
#[derive(Clone, Copy)]
pub struct Values<'a> {
    members: Members<'a>,
}

impl<'a> Values<'a> {
    ghost use Rattle.gql_base.specs.Pairs.{values_of};
    ghost use Rattle.gql_input.specs.Iterators.{values_left};

    /// All values, from the first on.
    pub fn new(members: &'a Pairs<Value>) -> Values<'a>
        ensures { values_left result ≡ values_of members.now }
    {
        Values {
            members: Members::new(members),
        }
    }
}

impl<'a> Iterator for Values<'a> {
    type Item = ValueAccessor<'a>;

    ghost use Rattle.std.specs.Iterator.{YieldsFirstBy, item_count};
    ghost use Rattle.gql_input.specs.Accessor.{value_behind};
    ghost use Rattle.gql_input.specs.Iterators.{values_left};

    ghost next_gives = { YieldsFirstBy value_behind values_left };

    ghost remaining = { item_count values_left };

    fn next(&mut self) -> Option<ValueAccessor<'a>> {
        match self.members.next() {
            Some((_, value)) => Some(value),
            None => None,
        }
    }
}

/// The items of a list, in their order.
#[derive(Clone, Copy)]
pub struct ListItems<'a> {
    items: &'a [Value],
}

impl<'a> ListItems<'a> {
    ghost use Rattle.gql_input.specs.Iterators.{items_left};

    /// All items, from the first on.
    pub fn new(items: &'a [Value]) -> ListItems<'a>
        ensures { items_left result ≡ items.now }
    {
        ListItems { items }
    }
}

impl<'a> Iterator for ListItems<'a> {
    type Item = ValueAccessor<'a>;

    ghost use Rattle.std.specs.Iterator.{YieldsFirstBy, item_count};
    ghost use Rattle.gql_input.specs.Accessor.{value_behind};
    ghost use Rattle.gql_input.specs.Iterators.{items_left};

    ghost next_gives = { YieldsFirstBy value_behind items_left };

    ghost remaining = { item_count items_left };

    fn next(&mut self) -> Option<ValueAccessor<'a>> {
        match self.items.split_first() {
            Some((first, rest)) => {
                self.items = rest;
                Some(ValueAccessor::new(first))
            }
            None => None,
        }
    }
}
