ghost use Rattle.std.specs.Prelude.{◌≡◌, [], ◌+◌, ◌*◌, ◌↔◌, ◌<◌, ◌≤◌, IsTrue, OnOk, OnErr, IfOk};
ghost use Rattle.std.specs.Prelude.{length, vec_len, vec_capacity};
ghost use Rattle.std.specs.List.{zip};
ghost use Rattle.std.specs.Option.{option_copied};
ghost use Rattle.gql_request.specs.KeyTree.{IsKeyTree};
ghost use Rattle.gql_request.specs.Data.{under_key, put_key, put_keys};

use crate::key_tree::{KeyTree, Sought};
use gql_base::{Copied, Made, Value};
use std::alloc::Global;
use std::marker::Model;
use thiserror::Error;

/// The key of a value of a layer.
#[derive(Clone, Copy, PartialEq, Eq, Hash, Debug)]
pub struct DataKey(pub u32);

/// That a key has no value. It holds the key.
#[derive(Clone, Copy, PartialEq, Eq, Debug, Error)]
#[error("no data is under this key")]
pub struct NoData(pub DataKey);

impl Copied for DataKey {
    fn try_clone(&self, _alloc: Global) -> Made<DataKey> {
        Ok(*self)
    }
}

impl Copied for NoData {
    fn try_clone(&self, _alloc: Global) -> Made<NoData> {
        Ok(*self)
    }
}

/// Values under keys. Contracts see the list of the pairs of a key's number and its value, in order
/// of insertion.
#[derive(Debug, Drop)]
pub struct Data {
    tree: KeyTree,
    values: Vec<Value>,
}

impl Model for Data {
    ghost use Rattle.std.specs.Prelude.{List, ℕ, length, ◌≡◌};
    ghost use Rattle.std.specs.List.{zip};
    ghost use Rattle.std.specs.Coded.{coded_list, coded×, coded_ℕ};
    ghost use Rattle.gql_base.specs.declared.value.Value.{Value as OneValue};
    ghost use Rattle.gql_base.specs.contracts.value.Value.{the_row};

    ghost Value = { List (ℕ × OneValue) };

    ghost coded = { coded_list (coded× coded_ℕ the_row.coded) };

    ghost use Rattle.gql_request.specs.KeyTree.{IsKeyTree};

    ghost view = { λ held. zip held.tree.keys.items held.values.items };

    ghost invariant = { λ held. IsKeyTree held.tree.keys.items held.tree.links.items
        × (length held.values.items ≡ length held.tree.keys.items) };
}

impl Data {
    /// No value at all, which takes no memory.
    pub fn new(alloc: Global) -> Data
        ensures { result ≡ [] }
    {
        Data {
            tree: KeyTree::new(alloc),
            values: Vec::new(alloc),
        }
    }

    /// Sets the value under a key. A key that is there keeps its place, and another goes to the
    /// end. Where memory runs out the data stay as they were.
    #[tactic(auto, using(crate::proofs::DataLemmas::put_found, crate::proofs::DataLemmas::inserts))]
    pub fn insert(&mut self, key: DataKey, value: Value) -> Made<()>
        ensures ok { OnOk result (self.new ≡ put_key self.old key.0 value) }
        ensures err { OnErr result (self.new ≡ self.old) }
    {
        match self.tree.sought(key.0) {
            Sought::At(place) => {
                self.values[place] = value;
                Ok(())
            }
            Sought::Missing(end) => {
                self.values.reserve(1)?;
                self.tree.reserve(1, 2)?;
                self.tree.grow(end, key.0);
                self.values.push_reserved(value);
                Ok(())
            }
        }
    }

    /// The value under a key, or none where the key isn't there.
    #[tactic(auto, using(crate::proofs::DataLemmas::finds, crate::proofs::DataLemmas::misses))]
    pub fn get(&self, key: DataKey) -> Option<&Value>
        ensures { option_copied result ≡ under_key key.0 self.now }
    {
        match self.tree.sought(key.0) {
            Sought::At(place) => Some(&self.values[place]),
            Sought::Missing(_) => None,
        }
    }

    /// True exactly where there is no value.
    pub fn is_empty(&self) -> bool
        ensures { IsTrue result ↔ (self.now ≡ []) }
    {
        self.values.is_empty()
    }

    /// Sets the values of the others in their order, each as `insert` does. Room for all of them is
    /// made first: where memory runs out, no value is set, and the data stay as they were.
    pub fn merge(&mut self, other: Data) -> Made<()>
        ensures ok { OnOk result (self.new ≡ put_keys self.old other) }
        ensures err { OnErr result (self.new ≡ self.old) }
    {
        let Data { tree, values } = other;
        self.values.reserve(values.len())?;
        self.tree.reserve(tree.keys.len(), tree.links.len())?;
        put_all(
            &mut self.tree,
            &mut self.values,
            tree.keys.as_slice(),
            values,
        );
        Ok(())
    }

    /// True exactly where the other data have the same keys in the same order, with the same
    /// values.
    #[tactic(auto, using(crate::proofs::DataLemmas::same_data))]
    pub fn equals(&self, other: &Data) -> bool
        ensures { IsTrue result ↔ (self.now ≡ other.now) }
    {
        same_keys(self.tree.keys.as_slice(), other.tree.keys.as_slice())
            && same_values(self.values.as_slice(), other.values.as_slice())
    }
}

/// Data are compared by `equals`.
impl PartialEq for Data {
    ghost use Rattle.gql_base.specs.Same.{is_same, is_same_laws};
    ghost use Rattle.gql_request.specs.contracts.data.Data.{the_row};

    ghost eq = { is_same the_row.coded };

    ghost laws = { is_same_laws the_row.coded };

    fn eq(&self, other: &Data) -> bool {
        self.equals(other)
    }
}

impl Eq for Data {
    ghost use Rattle.gql_base.specs.Same.{is_same_equivalence};
    ghost use Rattle.gql_request.specs.contracts.data.Data.{the_row};

    ghost laws = { is_same_equivalence the_row.coded };
}

impl Copied for Data {
    fn try_clone(&self, alloc: Global) -> Made<Data> {
        let values = copy_values(alloc, self.values.as_slice())?;
        let tree = self.tree.copy(alloc)?;
        Ok(Data { tree, values })
    }
}

fn copy_values(alloc: Global, values: &[Value]) -> Made<Vec<Value>>
    ensures { IfOk result (λ copies. copies.items ≡ values.now) }
{
    let mut copies = Vec::new(alloc);
    for value in values {
        copies.push(value.try_clone(alloc)?)?;
    }
    Ok(copies)
}

fn same_keys(a: &[u32], b: &[u32]) -> bool
    ensures { IsTrue result ↔ (a.now ≡ b.now) }
{
    a == b
}

fn same_values(a: &[Value], b: &[Value]) -> bool
    ensures { IsTrue result ↔ (a.now ≡ b.now) }
{
    a == b
}

/// Sets each of some values under the key at its place, where there is room for all of them.
#[tactic(auto, using(crate::proofs::DataLemmas::puts_more, crate::proofs::DataLemmas::puts_none))]
fn put_all(
    tree: &mut KeyTree,
    values: &mut Vec<Value>,
    other_keys: &[u32],
    other_values: Vec<Value>,
)
    requires tree { IsKeyTree tree.old.keys.items tree.old.links.items }
    requires same { length values.old.items ≡ length tree.old.keys.items }
    requires others { length other_values.items ≡ length other_keys.now }
    requires room { vec_len values.old + length other_values.items ≤ vec_capacity values.old }
    requires key_room { vec_len tree.old.keys + length other_values.items ≤ vec_capacity tree.old.keys }
    requires link_room { vec_len tree.old.links + 2 * length other_values.items ≤ vec_capacity tree.old.links }
    ensures tree { IsKeyTree tree.new.keys.items tree.new.links.items }
    ensures same { length values.new.items ≡ length tree.new.keys.items }
    ensures pairs { zip tree.new.keys.items values.new.items
        ≡ put_keys (zip tree.old.keys.items values.old.items)
        (zip other_keys.now other_values.items) }
{
    let mut place = 0;
    for value in other_values {
        put_within(tree, values, other_keys[place], value);
        place += 1;
    }
}

/// Sets the value under a key, where there is room for one more.
#[tactic(auto, using(crate::proofs::DataLemmas::put_found, crate::proofs::DataLemmas::inserts))]
fn put_within(tree: &mut KeyTree, values: &mut Vec<Value>, key: u32, value: Value)
    requires tree { IsKeyTree tree.old.keys.items tree.old.links.items }
    requires same { length values.old.items ≡ length tree.old.keys.items }
    requires room { vec_len values.old < vec_capacity values.old }
    requires key_room { vec_len tree.old.keys < vec_capacity tree.old.keys }
    requires link_room { vec_len tree.old.links + 2 ≤ vec_capacity tree.old.links }
    ensures tree { IsKeyTree tree.new.keys.items tree.new.links.items }
    ensures same { length values.new.items ≡ length tree.new.keys.items }
    ensures pairs { zip tree.new.keys.items values.new.items
        ≡ put_key (zip tree.old.keys.items values.old.items) key value }
    ensures room { vec_len values.new ≤ vec_len values.old + 1 }
    ensures capacity { vec_capacity values.old ≤ vec_capacity values.new }
    ensures key_room { vec_len tree.new.keys ≤ vec_len tree.old.keys + 1 }
    ensures key_capacity { vec_capacity tree.old.keys ≤ vec_capacity tree.new.keys }
    ensures link_room { vec_len tree.new.links ≤ vec_len tree.old.links + 2 }
    ensures link_capacity { vec_capacity tree.old.links ≤ vec_capacity tree.new.links }
{
    match tree.sought(key) {
        Sought::At(place) => values[place] = value,
        Sought::Missing(end) => {
            tree.grow(end, key);
            values.push_reserved(value);
        }
    }
}
