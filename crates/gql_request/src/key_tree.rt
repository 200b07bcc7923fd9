//! The keys of data, so that a look-up takes at most 33 steps whatever the keys are.

ghost use Rattle.std.specs.Prelude.{◌≡◌, [], ◌∷◌, ◌++◌, ◌+◌, ◌*◌, ◌<◌, ◌≤◌, ℕ, Some, IfOk, OnOk};
ghost use Rattle.std.specs.Prelude.{length, slice_get, vec_len, vec_capacity};
ghost use Rattle.gql_request.specs.KeyTree.{IsKeyTree, Leads, EndsAt, EndsWithin, Finds, with_end};

use gql_base::Made;
use std::alloc::Global;

/// Keys in order of insertion. The key at a place has the links of the numbers `2 * place` and
/// `2 * place + 1`, each to the place of a key that was added later. The way to a key begins at the
/// first key; at another key it takes the link of the lowest bit of the key that is sought, and
/// leaves that bit out.
#[derive(Debug, Drop)]
pub struct KeyTree {
    pub keys: Vec<u32>,
    pub links: Vec<Option<usize>>,
}

/// Where a key is.
#[derive(Clone, Copy)]
pub enum Sought {
    /// At this place.
    At(usize),
    /// Nowhere: the way to it ends at this link, or there is no key at all.
    Missing(Option<usize>),
}

impl KeyTree {
    /// No key at all, which takes no memory.
    pub fn new(alloc: Global) -> KeyTree
        ensures keys { result.keys.items ≡ [] }
        ensures links { result.links.items ≡ [] }
    {
        KeyTree {
            keys: Vec::new(alloc),
            links: Vec::new(alloc),
        }
    }

    /// A copy.
    pub fn copy(&self, alloc: Global) -> Made<KeyTree>
        ensures keys { IfOk result (λ copy. copy.keys.items ≡ self.now.keys.items) }
        ensures links { IfOk result (λ copy. copy.links.items ≡ self.now.links.items) }
    {
        Ok(KeyTree {
            keys: Vec::from_slice(alloc, self.keys.as_slice())?,
            links: Vec::from_slice(alloc, self.links.as_slice())?,
        })
    }

    /// Where a key is.
    pub fn sought(&self, key: u32) -> Sought
        requires { IsKeyTree self.now.keys.items self.now.links.items }
        ensures { Finds self.now.keys.items self.now.links.items key 0 key result }
    {
        if self.keys.is_empty() {
            return Sought::Missing(None);
        }
        sought_from(self.keys.as_slice(), self.links.as_slice(), key, 0, key)
    }

    /// Makes room for some more keys.
    pub fn reserve(&mut self, keys: usize, links: usize) -> Made<()>
        ensures keys { self.new.keys.items ≡ self.old.keys.items }
        ensures links { self.new.links.items ≡ self.old.links.items }
        ensures room { OnOk result (vec_len self.new.keys + keys ≤ vec_capacity self.new.keys) }
        ensures link_room { OnOk result (vec_len self.new.links + links ≤ vec_capacity self.new.links) }
    {
        self.keys.reserve(keys)?;
        self.links.reserve(links)
    }

    /// Adds a key for which there is room, at the end of its way.
    #[tactic(auto, using(crate::proofs::KeyTreeLemmas::grown_end, crate::proofs::KeyTreeLemmas::ends_within))]
    pub fn grow(&mut self, end: Option<usize>, key: u32)
        requires tree { IsKeyTree self.old.keys.items self.old.links.items }
        requires ends { EndsAt self.old.links.items 0 key end }
        requires room { vec_len self.old.keys < vec_capacity self.old.keys }
        requires link_room { vec_len self.old.links + 2 ≤ vec_capacity self.old.links }
        ensures tree { IsKeyTree self.new.keys.items self.new.links.items }
        ensures keys { self.new.keys.items ≡ self.old.keys.items ++ key ∷ [] }
        ensures len { vec_len self.new.keys ≡ vec_len self.old.keys + 1 }
        ensures capacity { vec_capacity self.new.keys ≡ vec_capacity self.old.keys }
        ensures link_len { vec_len self.new.links ≡ vec_len self.old.links + 2 }
        ensures link_capacity { vec_capacity self.new.links ≡ vec_capacity self.old.links }
    {
        set_end(&mut self.links, end, self.keys.len());
        self.links.push_reserved(None);
        self.links.push_reserved(None);
        self.keys.push_reserved(key);
    }
}

/// Lets the link at an end, if there is one, go to a place.
fn set_end(links: &mut Vec<Option<usize>>, end: Option<usize>, place: usize)
    requires { EndsWithin links.old.items end }
    ensures items { links.new.items ≡ with_end links.old.items end place }
    ensures len { vec_len links.new ≡ vec_len links.old }
    ensures capacity { vec_capacity links.new ≡ vec_capacity links.old }
{
    if let Some(link) = end {
        links[link] = Some(place);
    }
}

/// Where a key is, on the way from a place by the bits that are left.
fn sought_from(keys: &[u32], links: &[Option<usize>], key: u32, place: usize, bits: u32) -> Sought
    requires tree { IsKeyTree keys.now links.now }
    requires within { place < length keys.now }
    requires leads { (goal : ℕ) → slice_get keys.now goal ≡ Some key → Leads links.now goal place bits }
    ensures { Finds keys.now links.now key place bits result }
{
    if keys[place] == key {
        return Sought::At(place);
    }
    let link = 2 * place + (bits % 2) as usize;
    match links[link] {
        Some(next) => sought_from(keys, links, key, next, bits / 2),
        None => Sought::Missing(Some(link)),
    }
}
