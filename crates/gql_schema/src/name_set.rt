ghost use Rattle.std.specs.Prelude.{◌≡◌, [], ◌∷◌, ◌++◌, ◌<◌, length, slice_get, OnOk, OnErr, Some};
ghost use Rattle.std.specs.Prelude.{false, IfOk};
ghost use Rattle.gql_schema.specs.NameSet.{is_among, with_name, with_names};

use crate::same::Same;
use gql_base::{Copied, Items, Made, Name, Names, Text};
use std::alloc::Global;
use std::marker::Model;

/// Names in order, none twice, and found without going through them. Contracts see the list of the
/// names.
#[derive(Debug, Drop)]
pub struct NameSet {
    names: Names,
}

impl Model for NameSet {
    ghost use Rattle.std.specs.Prelude.{List, ℕ};
    ghost use Rattle.std.specs.Coded.{coded_list, coded_ℕ};

    ghost Value = { List (List ℕ) };

    ghost coded = { coded_list (coded_list coded_ℕ) };

    ghost view = { λ set. set.names };
}

impl NameSet {
    ghost use Rattle.gql_base.specs.Names.{AreDistinct};

    /// No name, which takes no memory.
    pub fn new(alloc: Global) -> NameSet
        ensures { result ≡ [] }
    {
        NameSet {
            names: Names::new(alloc),
        }
    }

    /// The names that some texts are, in order. One that comes again changes nothing.
    pub fn of_texts(alloc: Global, texts: Items<Text>) -> Made<NameSet>
        ensures { IfOk result (λ set. set ≡ with_names [] texts) }
    {
        let mut set = NameSet::new(alloc);
        for text in texts.into_vec() {
            set.add(Name::from_text(text))?;
        }
        Ok(set)
    }

    /// The number of names, which differ.
    pub fn len(&self) -> usize
        ensures length { result ≡ length self.now }
        ensures distinct { AreDistinct self.now }
    {
        self.names.len()
    }

    /// True exactly where the name is among these.
    #[tactic(auto, using(crate::proofs::NameSetLemmas::place_among))]
    pub fn has(&self, name: &str) -> bool
        ensures { result ≡ is_among name.now self.now }
    {
        self.names.place_of(name).is_some()
    }

    /// The name at a place, counted from 0.
    pub fn at(&self, place: usize) -> &str
        requires { place < length self.now }
        ensures { slice_get self.now place ≡ Some result.now }
    {
        self.names.at(place)
    }

    /// Adds a name at the end. One that is there changes nothing.
    pub fn add(&mut self, name: Name) -> Made<()>
        ensures ok { OnOk result (self.new ≡ with_name self.old name) }
        ensures err { OnErr result (self.new ≡ self.old) }
    {
        if self.has(name.as_str()) {
            return Ok(());
        }
        self.add_fresh(name)
    }

    /// Adds a name that isn't there, at the end.
    #[tactic(auto, using(crate::proofs::NameSetLemmas::absent_place))]
    pub fn add_fresh(&mut self, name: Name) -> Made<()>
        requires { is_among name self.old ≡ false }
        ensures ok { OnOk result (self.new ≡ self.old ++ name ∷ []) }
        ensures err { OnErr result (self.new ≡ self.old) }
    {
        self.names.add_fresh(name)
    }
}

impl Copied for NameSet {
    fn try_clone(&self, alloc: Global) -> Made<NameSet> {
        let names = self.names.try_clone(alloc)?;
        Ok(NameSet { names })
    }
}

impl Same for NameSet {
    fn same(&self, other: &NameSet) -> bool {
        if self.len() != other.len() {
            return false;
        }
        for place in 0..self.len() {
            let name = self.at(place);
            let other_name = other.at(place);
            if name != other_name {
                return false;
            }
        }
        true
    }
}
