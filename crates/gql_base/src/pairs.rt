ghost use Rattle.std.specs.Prelude.{◌≡◌, ◌↔◌, [], ◌∷◌, ◌++◌, ◌<◌, IsTrue, length, slice_get};
ghost use Rattle.std.specs.Prelude.{slice_set, vec_len};
ghost use Rattle.std.specs.Prelude.{IfOk, IfSome, OnOk, OnErr, Some, None};
ghost use Rattle.std.specs.Borrow.{Lends, LendsIf, sem};
ghost use Rattle.std.specs.List.{zip};
ghost use Rattle.std.specs.Option.{option_copied, option_copied_mut};
ghost use Rattle.gql_base.specs.Names.{place_of};
ghost use Rattle.gql_base.specs.Pairs.{under, put, names_of, values_of, HasDistinctNames};

use crate::copied::{Copied, copies};
use crate::made::Made;
use crate::name::Name;
use crate::names::Names;
use std::alloc::Global;
use std::marker::Model;
use std::mem;

/// Values under names, in order of insertion and with no name twice. Contracts see the list of the
/// pairs.
#[derive(Debug, Drop)]
pub struct Pairs<T> {
    names: Names,
    values: Vec<T>,
}

impl<T> Model for Pairs<T> {
    ghost use Rattle.std.specs.Prelude.{List, ℕ, length, ◌≡◌};
    ghost use Rattle.std.specs.List.{zip};
    ghost use Rattle.std.specs.Coded.{coded_list, coded×, coded_ℕ};

    ghost Value = { List (List ℕ × T) };

    ghost coded = { coded_list (coded× (coded_list coded_ℕ) T.code) };

    ghost view = { λ pairs. zip pairs.names pairs.values.items };

    ghost invariant = { λ pairs. length pairs.values.items ≡ length pairs.names };
}

impl<T> Pairs<T> {
    ghost use Rattle.gql_base.specs.contracts.pairs.Pairs.{the_row};

    /// No pair at all, which takes no memory.
    pub fn new(alloc: Global) -> Pairs<T>
        ensures { result ≡ [] }
    {
        Pairs {
            names: Names::new(alloc),
            values: Vec::new(alloc),
        }
    }

    /// The number of pairs.
    pub fn len(&self) -> usize
        ensures length { result ≡ length self.now }
        ensures distinct { HasDistinctNames self.now }
    {
        // (reading the field shows the invariant: each name is there once, and has a value)
        let _values = &self.values;
        self.names.len()
    }

    /// True exactly where there is no pair.
    pub fn is_empty(&self) -> bool
        ensures { IsTrue result ↔ (self.now ≡ []) }
    {
        self.len() == 0
    }

    /// The place of a name, counted from 0, or none where the name isn't there.
    pub fn place_of(&self, name: &str) -> Option<usize>
        ensures place { result ≡ place_of name.now (names_of self.now) }
        ensures within { IfSome result (λ place. place < length self.now) }
    {
        // (reading the field shows the invariant: each name is there once, and has a value)
        let _values = &self.values;
        self.names.place_of(name)
    }

    /// The value under a name, or none where the name isn't there.
    pub fn get(&self, name: &str) -> Option<&T>
        ensures { option_copied result ≡ under name.now self.now }
    {
        match self.names.place_of(name) {
            Some(place) => Some(&self.values[place]),
            None => None,
        }
    }

    /// The pair at a place, counted from 0.
    pub fn at(&self, place: usize) -> (&str, &T)
        requires { place < length self.now }
        ensures { slice_get self.now place ≡ Some (result.0.now, result.1.now) }
    {
        let (name, value) = self.pair_at(place);
        (name.as_str(), value)
    }

    /// The same with the name as it is kept: a copy of a long name shares its bytes.
    pub fn pair_at(&self, place: usize) -> (&Name, &T)
        requires { place < length self.now }
        ensures { slice_get self.now place ≡ Some (result.0.now, result.1.now) }
    {
        (self.names.name_at(place), &self.values[place])
    }

    /// The value at a place, counted from 0, to be changed.
    pub fn at_mut(&mut self, place: usize) -> &mut T
        requires { place < length self.old }
        ensures* writes_back { sem 𝓛 (Lends (the_row T.row) T.row self.entry result
            (λ value. zip (names_of self.old) (slice_set (values_of self.old) place value))) }
        ensures value { slice_get (values_of self.old) place ≡ Some result.now }
    {
        &mut self.values[place]
    }

    /// The value under a name, to be changed, or none where the name isn't there.
    pub fn get_mut(&mut self, name: &str) -> Option<&mut T>
        ensures* writes_back { sem 𝓛
            (LendsIf (the_row T.row) T.row self.entry result (put self.old name.now) self.old) }
        ensures value { option_copied_mut result ≡ under name.now self.old }
    {
        match self.place_of(name) {
            Some(place) => Some(self.at_mut(place)),
            None => None,
        }
    }

    /// The names and the values, moved.
    pub fn into_parts(self) -> (Names, Vec<T>)
        ensures names { result.0 ≡ names_of self }
        ensures values { result.1.items ≡ values_of self }
    {
        let Pairs { names, values } = self;
        (names, values)
    }

    /// Names and as many values, moved: each value stands under the name in its place.
    pub fn from_parts(names: Names, values: Vec<T>) -> Pairs<T>
        requires { length values.items ≡ length names }
        ensures { result ≡ zip names values.items }
    {
        Pairs { names, values }
    }

    /// The same names with other values, each in the place of the one it stands for. No name is
    /// looked up.
    pub fn with_values<U: Drop>(&self, alloc: Global, values: Vec<U>) -> Made<Pairs<U>>
        requires { length values.items ≡ length self.now }
        ensures { IfOk result (λ made. made ≡ zip (names_of self.now) values.items) }
    {
        // (reading the field shows the invariant: each name is there once, and has a value)
        let _values = &self.values;
        let names = self.names.try_clone(alloc)?;
        Ok(Pairs { names, values })
    }
}

impl<T: Drop> Pairs<T> {
    /// The same pairs, whose names copies share from here on.
    pub fn shared(self, alloc: Global) -> Made<Pairs<T>>
        ensures { IfOk result (λ pairs. pairs ≡ self) }
    {
        let Pairs { names, values } = self;
        let names = names.shared(alloc)?;
        Ok(Pairs { names, values })
    }

    /// No pair at all, with room for some.
    pub fn with_capacity(alloc: Global, room: usize) -> Made<Pairs<T>>
        ensures { IfOk result (λ made. made ≡ []) }
    {
        let names = Names::with_capacity(alloc, room)?;
        let values = Vec::with_capacity(alloc, room)?;
        Ok(Pairs { names, values })
    }

    /// Takes room for more pairs.
    pub fn reserve(&mut self, more: usize) -> Made<()>
        ensures { self.new ≡ self.old }
    {
        self.names.reserve(more)?;
        self.values.reserve(more)
    }

    /// Adds a value under a name that isn't there, at the end, and looks no name up. Where memory
    /// is wanting the pairs stay as they were.
    pub fn add_fresh(&mut self, name: Name, value: T) -> Made<()>
        requires { under name self.old ≡ None }
        ensures added { OnOk result (self.new ≡ self.old ++ (name, value) ∷ []) }
        ensures err { OnErr result (self.new ≡ self.old) }
    {
        self.values.reserve(1)?;
        self.names.add_fresh(name)?;
        self.values.push_reserved(value);
        Ok(())
    }

    /// Sets the value under a name. A name that is there keeps its place, and its old value is
    /// answered; another goes to the end. Where memory runs out the pairs stay as they were.
    pub fn insert(&mut self, name: Name, value: T) -> Made<Option<T>>
        ensures put { OnOk result (self.new ≡ put self.old name value) }
        ensures replaced { IfOk result (λ old. old ≡ under name self.old) }
        ensures err { OnErr result (self.new ≡ self.old) }
    {
        match self.names.place_of(name.as_str()) {
            Some(place) => {
                // (dropped here: the drop of a text branches on its kind, and at the end of the
                // arm it would stand between the result and what is known of it)
                drop(name);
                Ok(Some(replaced(&mut self.values, place, value)))
            }
            None => {
                self.add_fresh(name, value)?;
                Ok(None)
            }
        }
    }

    /// Sets the value under a name, as `insert` does, and lets an old value go.
    pub fn add(&mut self, name: Name, value: T) -> Made<()>
        ensures put { OnOk result (self.new ≡ put self.old name value) }
        ensures err { OnErr result (self.new ≡ self.old) }
    {
        drop(self.insert(name, value)?);
        Ok(())
    }
}

/// Sets the value at a place, and gives what stood there.
fn replaced<T>(values: &mut Vec<T>, place: usize, value: T) -> T
    requires { place < vec_len values.old }
    ensures set { values.new.items ≡ slice_set values.old.items place value }
    ensures old { slice_get values.old.items place ≡ Some result }
{
    mem::replace(&mut values[place], value)
}

impl<T: Copied + Drop> Copied for Pairs<T> {
    fn try_clone(&self, alloc: Global) -> Made<Pairs<T>> {
        let values = copies(alloc, self.values.as_slice())?;
        let names = self.names.try_clone(alloc)?;
        Ok(Pairs { names, values })
    }
}

/// Equal where the names and the values are, in their order.
impl<T: PartialEq> PartialEq for Pairs<T> {
    ghost use Rattle.std.specs.Prelude.{nat_eq};
    ghost use Rattle.std.specs.Cmp.{and_per, on_per, partial_equiv_from_equiv};
    ghost use Rattle.std.specs.Cmp.Lexicographic.{pointwise, lists_per, nat_list_eq_equiv};
    ghost use Rattle.gql_base.specs.Pairs.{same_pair};

    ghost eq = { pointwise (same_pair T.eq) };

    ghost laws = { lists_per
        (and_per (on_per (λ p. p.0) (partial_equiv_from_equiv nat_list_eq_equiv))
        (on_per (λ p. p.1) T.laws)) };

    fn eq(&self, other: &Pairs<T>) -> bool {
        self.names == other.names && self.values.as_slice() == other.values.as_slice()
    }
}
