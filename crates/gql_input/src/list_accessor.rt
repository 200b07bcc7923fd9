ghost use Rattle.std.specs.Prelude.{◌≡◌, ◌↔◌, ◌≤◌, ◌<◌, ◌⊎◌, IsTrue, MatchOption, MatchResult};
ghost use Rattle.std.specs.Prelude.{None, Some, [], length, slice_get, slice_range};
ghost use Rattle.gql_input.specs.Accessor.{value_behind, items_behind};
ghost use Rattle.gql_input.specs.Iterators.{items_left};

use crate::access_fault::AccessFault;
use crate::iterators::ListItems;
use crate::value_accessor::ValueAccessor;
use gql_base::Value;

/// The items of one list, in their order.
#[derive(Clone, Copy)]
pub struct ListAccessor<'a> {
    items: &'a [Value],
}

impl<'a> ListAccessor<'a> {
    /// An accessor of items.
    pub fn new(items: &'a [Value]) -> ListAccessor<'a>
        ensures { items_behind result ≡ items.now }
    {
        ListAccessor { items }
    }

    /// The items.
    pub fn as_values_slice(&self) -> &'a [Value]
        ensures { result.now ≡ items_behind self.now }
    {
        self.items
    }

    /// The number of items.
    pub fn len(&self) -> usize
        ensures { result ≡ length (items_behind self.now) }
    {
        self.items.len()
    }

    /// True exactly where there is no item.
    pub fn is_empty(&self) -> bool
        ensures { IsTrue result ↔ (items_behind self.now ≡ []) }
    {
        self.items.is_empty()
    }

    /// The items, one after another.
    pub fn iter(&self) -> ListItems<'a>
        ensures { items_left result ≡ items_behind self.now }
    {
        ListItems::new(self.items)
    }

    /// The item at a place, counted from 0, or none past the end.
    pub fn get(&self, idx: usize) -> Option<ValueAccessor<'a>>
        ensures { MatchOption result (slice_get (items_behind self.now) idx ≡ None)
            (λ found. slice_get (items_behind self.now) idx ≡ Some (value_behind found)) }
    {
        let value = self.items.get(idx)?;
        Some(ValueAccessor::new(value))
    }

    /// The item at a place, counted from 0; the fault tells the place where it is past the end.
    pub fn try_get(&self, idx: usize) -> Result<ValueAccessor<'a>, AccessFault<'static>>
        ensures { MatchResult result (λ found. slice_get (items_behind self.now) idx
            ≡ Some (value_behind found))
            (λ fault. (fault ≡ AccessFault.NoIndex idx)
            × (slice_get (items_behind self.now) idx ≡ None)) }
    {
        match self.get(idx) {
            Some(found) => Ok(found),
            None => Err(AccessFault::NoIndex(idx)),
        }
    }

    /// The items from one place up to another. It refuses where the first place is over the second,
    /// or the second over the length.
    pub fn as_slice(
        &self,
        start: usize,
        end: usize,
    ) -> Result<ListAccessor<'a>, AccessFault<'static>>
        ensures { MatchResult result
            (λ part. (start ≤ end) × (end ≤ length (items_behind self.now))
            × (items_behind part ≡ slice_range (items_behind self.now) start end))
            (λ fault. (fault ≡ AccessFault.BadSlice)
            × ((end < start) ⊎ (length (items_behind self.now) < end))) }
    {
        if start <= end && end <= self.items.len() {
            Ok(ListAccessor::new(&self.items[start..end]))
        } else {
            Err(AccessFault::BadSlice)
        }
    }
}
