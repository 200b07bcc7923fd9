ghost use Rattle.std.specs.Prelude.{◌≡◌, [], ◌∷◌, ◌++◌, ◌<◌, length, slice_get, map, None, OnOk};
ghost use Rattle.std.specs.Prelude.{OnErr, IfSome, Some};
ghost use Rattle.std.specs.Option.{option_copied};
ghost use Rattle.gql_base.specs.Names.{place_of};
ghost use Rattle.gql_base.specs.Pairs.{under, put};

use crate::named::Named;
use gql_base::{Copied, Made, Name, Pairs};
use std::alloc::Global;
use std::marker::Model;

/// Items with names of their own, no name twice, in order and found by name. Contracts see the list
/// of the items under their names.
#[derive(Debug, Drop)]
pub struct ByName<T: Named> {
    pairs: Pairs<T>,
}

impl<T: Named> Model for ByName<T> {
    ghost use Rattle.std.specs.Prelude.{List, ℕ, map, ◌≡◌};
    ghost use Rattle.std.specs.Coded.{coded_list, coded×, coded_ℕ};
    ghost use Rattle.gql_base.specs.Pairs.{names_of};

    ghost Value = { List (List ℕ × T) };

    ghost coded = { coded_list (coded× (coded_list coded_ℕ) T.code) };

    ghost view = { λ items. items.pairs };

    ghost invariant = { λ items. names_of items.pairs ≡ map (λ p. T.name_of p.1) items.pairs };
}

impl<T: Named> ByName<T> {
    ghost use Rattle.gql_base.specs.Pairs.{HasDistinctNames, names_of};

    /// No item, which takes no memory.
    pub fn new(alloc: Global) -> ByName<T>
        ensures { result ≡ [] }
    {
        ByName {
            pairs: Pairs::new(alloc),
        }
    }

    /// The number of items. Their keys are their own names, which differ.
    pub fn len(&self) -> usize
        ensures length { result ≡ length self.now }
        ensures distinct { HasDistinctNames self.now }
        ensures keyed { names_of self.now ≡ map (λ p. T.name_of p.1) self.now }
    {
        self.pairs.len()
    }

    /// The item of this name, or none where there is no such item.
    pub fn get(&self, name: &str) -> Option<&T>
        ensures { option_copied result ≡ under name.now self.now }
    {
        self.pairs.get(name)
    }

    /// The place of the item of this name, counted from 0, or none where there is no such item.
    pub fn place_of(&self, name: &str) -> Option<usize>
        ensures place { result ≡ place_of name.now (names_of self.now) }
        ensures within { IfSome result (λ place. place < length self.now) }
    {
        self.pairs.place_of(name)
    }

    /// The item at a place, counted from 0, under its name.
    pub fn at(&self, place: usize) -> (&str, &T)
        requires { place < length self.now }
        ensures { slice_get self.now place ≡ Some (result.0.now, result.1.now) }
    {
        self.pairs.at(place)
    }
}

impl<T: Named + Drop> ByName<T> {
    /// Puts an item under its name. One of that name keeps its place, and another goes to the end.
    #[tactic(auto, using(crate::proofs::ByNameLemmas::put_keyed))]
    pub fn put(&mut self, alloc: Global, item: T) -> Made<()>
        ensures put { OnOk result (self.new ≡ put self.old (T.name_of item) item) }
        ensures err { OnErr result (self.new ≡ self.old) }
    {
        let name = Name::new(alloc, item.own_name())?;
        self.pairs.add(name, item)
    }

    /// Adds an item whose name isn't there yet, at the end, and looks no name up.
    #[tactic(auto, using(crate::proofs::ByNameLemmas::added_keyed))]
    pub fn add(&mut self, alloc: Global, item: T) -> Made<()>
        requires { under (T.name_of item) self.old ≡ None }
        ensures added { OnOk result (self.new ≡ self.old ++ (T.name_of item, item) ∷ []) }
        ensures err { OnErr result (self.new ≡ self.old) }
    {
        let name = Name::new(alloc, item.own_name())?;
        self.pairs.add_fresh(name, item)
    }
}

impl<T: Named + Copied + Drop> Copied for ByName<T> {
    fn try_clone(&self, alloc: Global) -> Made<ByName<T>> {
        let pairs = self.pairs.try_clone(alloc)?;
        Ok(ByName { pairs })
    }
}
