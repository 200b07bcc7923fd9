ghost use Rattle.std.specs.Prelude.{◌≡◌, ◌∷◌, [], ◌++◌, None, IfOk, OnOk, OnErr};
ghost use Rattle.gql_base.specs.Names.{place_of, AreDistinct};
ghost use Rattle.gql_base.specs.Places.{HasPlaces, IsIndex, SamePlaces, SetsPlace};

use crate::chains::Chains;
use crate::made::Made;
use crate::name::Name;
use std::alloc::Global;
use std::collections::BTreeMap;

/// The place of each of some names, which stand in a list beside it. Chains are the faster form, but
/// a stranger can choose names that all come to one of them: where a chain gets long the places
/// stand in a tree, which no choice of names makes slow.
#[derive(Debug, Drop)]
pub(crate) enum Places {
    Chained(Chains),
    Ordered(BTreeMap<String, usize>),
}

impl Places {
    /// The places of some names.
    pub(crate) fn of(alloc: Global, names: &[Name]) -> Made<Places>
        requires { AreDistinct names.now }
        ensures { IfOk result (λ places. IsIndex places names.now) }
    {
        Ok(Places::Chained(Chains::of(alloc, names)?))
    }

    /// The place of a name, or none where it isn't among the names.
    pub(crate) fn get(&self, names: &[Name], name: &str) -> Option<usize>
        requires distinct { AreDistinct names.now }
        requires index { IsIndex self.now names.now }
        ensures { result ≡ place_of name.now names.now }
    {
        match self {
            Places::Chained(chains) => chains.find(names, name),
            Places::Ordered(tree) => tree.get(name).copied(),
        }
    }

    /// Adds the place of one name more, after the others.
    pub(crate) fn add(&mut self, alloc: Global, names: &[Name], name: &str) -> Made<()>
        requires fresh { place_of name.now names.now ≡ None }
        requires distinct { AreDistinct names.now }
        requires index { IsIndex self.old names.now }
        ensures ok { OnOk result (IsIndex self.new (names.now ++ name.now ∷ [])) }
        ensures err { OnErr result (IsIndex self.new names.now) }
    {
        self.make_room(alloc, names, name)?;
        match self {
            Places::Chained(chains) => chains.add(names, name),
            Places::Ordered(tree) => insert(alloc, tree, name, names.len()),
        }
    }

    /// Takes the form for one name more: a tree where the name's chain is long, and more chains where
    /// there are as many names as chains.
    fn make_room(&mut self, alloc: Global, names: &[Name], name: &str) -> Made<()>
        requires distinct { AreDistinct names.now }
        requires index { IsIndex self.old names.now }
        ensures { IsIndex self.new names.now }
    {
        let Places::Chained(chains) = self else {
            return Ok(());
        };
        if chains.is_long(name) {
            *self = Places::Ordered(tree_of(alloc, names)?);
        } else if chains.is_full() {
            *self = Places::Chained(Chains::of(alloc, names)?);
        }
        Ok(())
    }
}

/// A tree with the places of some names.
fn tree_of(alloc: Global, names: &[Name]) -> Made<BTreeMap<String, usize>>
    requires { AreDistinct names.now }
    ensures { IfOk result (λ tree. HasPlaces tree names.now) }
{
    let mut tree = BTreeMap::new(alloc);
    for (place, name) in names.iter().enumerate() {
        insert(alloc, &mut tree, name.as_str(), place)?;
    }
    Ok(tree)
}

/// Sets the place of a name in a tree.
fn insert(alloc: Global, tree: &mut BTreeMap<String, usize>, name: &str, place: usize) -> Made<()>
    ensures ok { OnOk result (SetsPlace tree.old tree.new name.now place) }
    ensures err { OnErr result (SamePlaces tree.old tree.new) }
{
    let key = String::from_str(alloc, name)?;
    tree.insert(key, place)?;
    Ok(())
}
