ghost use Rattle.std.specs.Prelude.{◌≡◌, ◌∷◌, [], ◌++◌, ◌<◌, IfOk, OnOk, OnErr, length};
ghost use Rattle.gql_base.specs.Chains.{AreChained, chain_of, hash_of};
ghost use Rattle.gql_base.specs.Names.{place_of, AreDistinct};

use crate::made::Made;
use crate::name::Name;
use std::alloc::Global;
use std::mem;

/// The least number of chains.
const LEAST: usize = 16;

/// A chain of more places than this is long.
const LONG: usize = 32;

/// The places of names, which stand in a list beside them, in chains: of one chain are the names
/// whose hashes leave the same remainder by the number of chains.
#[derive(Debug, Drop)]
pub(crate) struct Chains {
    /// The last place of each chain.
    heads: Vec<Option<usize>>,
    /// For each place, the one before it in its chain.
    before: Vec<Option<usize>>,
}

impl Chains {
    /// The places of some names, in at least twice as many chains.
    pub(crate) fn of(alloc: Global, names: &[Name]) -> Made<Chains>
        ensures { IfOk result (λ chains. AreChained chains names.now) }
    {
        let count = names.len().saturating_mul(2).max(LEAST);
        let mut chains = Chains::empty(alloc, count)?;
        for (place, name) in names.iter().enumerate() {
            chains.add(&names[..place], name.as_str())?;
        }
        Ok(chains)
    }

    /// No place, in so many chains.
    fn empty(alloc: Global, count: usize) -> Made<Chains>
        requires { 0 < count }
        ensures { IfOk result (λ chains. AreChained chains []) }
    {
        Ok(Chains {
            heads: vec![in alloc; None; count]?,
            before: Vec::new(alloc),
        })
    }

    /// The place of a name, or none where it isn't among the names.
    pub(crate) fn find(&self, names: &[Name], name: &str) -> Option<usize>
        requires distinct { AreDistinct names.now }
        requires chained { AreChained self.now names.now }
        ensures { result ≡ place_of name.now names.now }
    {
        let mut at = self.heads[chain_of(name, self.heads.len())];
        'chain: while let Some(place) = at {
            if names[place].as_str() == name {
                return Some(place);
            }
            at = self.before[place];
        }
        None
    }

    /// Adds the place of one name more, after the others.
    pub(crate) fn add(&mut self, names: &[Name], name: &str) -> Made<()>
        requires { AreChained self.old names.now }
        ensures ok { OnOk result (AreChained self.new (names.now ++ name.now ∷ [])) }
        ensures err { OnErr result (AreChained self.new names.now) }
    {
        self.before.reserve(1)?;
        let chain = chain_of(name, self.heads.len());
        let last = mem::replace(&mut self.heads[chain], Some(names.len()));
        self.before.push_reserved(last);
        Ok(())
    }

    /// Whether there are as many names as chains.
    pub(crate) fn is_full(&self) -> bool {
        self.before.len() >= self.heads.len()
    }

    /// Whether the chain of a name is long.
    pub(crate) fn is_long(&self, name: &str) -> bool
        requires { 0 < length self.now.heads.items }
    {
        let mut at = self.heads[chain_of(name, self.heads.len())];
        for _ in 0..LONG {
            let Some(place) = at else {
                return false;
            };
            at = self.before.get(place).copied().flatten();
        }
        true
    }
}

/// The chain of a name among so many.
fn chain_of(name: &str, count: usize) -> usize
    requires { 0 < count }
    ensures chain { result ≡ chain_of name.now count }
    ensures within { result < count }
{
    (hash_of(name.as_bytes()) % (count as u64)) as usize
}

/// The hash of the bytes of a name.
fn hash_of(bytes: &[u8]) -> u64
    ensures { result ≡ hash_of bytes.now }
{
    let mut hash: u64 = 14_695_981_039_346_656_037;
    for byte in bytes {
        hash = hash
            .wrapping_add(u64::from(*byte))
            .wrapping_mul(1_099_511_628_211);
    }
    hash
}
